use compose::Fault;

/// Why a step is refused, and the byte index of its mark: '+', '*' or ']'.
#[derive(Clone, Copy, Debug, PartialEq, Eq)]
pub struct StepFault {
    pub mark: usize,
    pub fault: Fault,
}

/// Why a line is refused, and its number, counted from 0.
#[derive(Clone, Copy, Debug, PartialEq, Eq)]
pub struct LineFault {
    pub line: usize,
    pub step: StepFault,
}
