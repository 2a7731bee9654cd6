//! Scripts that are read, and scripts that are refused.
use picture::Quadrant;
use recipe::{Fault, MAX_BYTES, Place, Step, read};
use std::test::Fail;

/// How many steps an accepted script has.
fn steps(script: &[u8]) -> Result<usize, Fault> {
    let recipe = read(script)?;
    Ok(recipe.steps().len())
}

#[test]
fn sixteen_levels(rt: HostRuntime) {
    assert_eq!(rt; steps(b"A=@@@@@@@@@@@@@@@@A\n"), Ok(18));
    assert_eq!(rt; steps(b"A=@@@@@@@@@@@@@@@@@A\n"), Err(Fault::Level(18)));
}

#[test]
fn six_waiting_pictures(rt: HostRuntime) {
    assert_eq!(rt; steps(b"A=A+(A+(A+(A+(A+A))))\n"), Ok(12));
    assert_eq!(rt;
        steps(b"A=A+(A+(A+(A+(A+(A+A)))))\n"),
        Err(Fault::Waiting(19))
    );
    assert_eq!(rt; steps(b"A=A+A*A+A*A*[A,B,C+D,^3E]\nB=A\n"), Ok(21));
}

#[test]
fn empty_script(rt: HostRuntime) {
    assert_eq!(rt; steps(b""), Ok(0));
}

#[test]
fn steps_in_order(rt: HostRuntime) -> Result<(), Fail> {
    let sum = read(b"A=A+@@@B\n")?;
    assert_eq!(rt;
        sum.steps(),
        [
            Step::Name(Place::A),
            Step::Name(Place::B),
            Step::Turn,
            Step::Turn,
            Step::Turn,
            Step::Add(3),
            Step::Store(Place::A),
        ]
        .as_slice()
    );
    let product = read(b"H=A*B*|^2C\n")?;
    assert_eq!(rt;
        product.steps(),
        [
            Step::Name(Place::A),
            Step::Name(Place::B),
            Step::Multiply(3),
            Step::Name(Place::C),
            Step::Zoom(Quadrant::LowerLeft),
            Step::Mirror,
            Step::Multiply(5),
            Step::Store(Place::H),
        ]
        .as_slice()
    );
    Ok(())
}

/// Fills a script with short lines, of which the last may lack its end.
fn fill(script: &mut [u8]) {
    for (i, byte) in script.iter_mut().enumerate() {
        *byte = b"A=A\n"[i % 4];
    }
}

#[test]
fn bytes(rt: HostRuntime) {
    let mut longest = [0; MAX_BYTES];
    fill(&mut longest);
    assert_eq!(rt; steps(&longest), Ok(256));
    let mut longer = [0; MAX_BYTES + 1];
    fill(&mut longer);
    assert_eq!(rt; steps(&longer), Err(Fault::TooLong));
    assert_eq!(rt; (Fault::TooLong.number(), Fault::TooLong.byte()), (8, None));
}

#[test]
fn refusals(rt: HostRuntime) -> Result<(), Fail> {
    let table: [(&[u8], u8, usize); 20] = [
        (b"A", 9, 1),
        (b"A=", 9, 2),
        (b"A=A", 9, 3),
        (b"\n", 9, 0),
        (b"I=A\n", 9, 0),
        (b"A= A\n", 9, 2),
        (b"A=A\n\n", 9, 4),
        (b"A=A\nI", 9, 4),
        (b"A=A+\n", 9, 4),
        (b"A=A)\n", 9, 3),
        (b"A=(A\n", 9, 4),
        (b"A=^4A\n", 9, 3),
        (b"A=[A,B,C]\n", 9, 8),
        (b"A=[A,B,C,D,A]\n", 9, 10),
        (b"A=A+(A+(A+(A+(A+(A+x", 9, 19),
        (b"A=@@@@@@@@@@@@@@@^4A\n", 9, 18),
        (b"A=@@@@@@@@@@@@@@@@(A)\n", 10, 18),
        (b"A=@@@@@@@@@@@@@@@@^4A\n", 10, 18),
        (b"A=A+(A+(A+(A+(A+(A*A)))))\n", 11, 19),
        (b"A=A\nB=A+[A,A,A,(A+(A*A))]\n", 11, 21),
    ];
    for (script, number, byte) in table {
        match read(script) {
            Ok(_) => return Err(Fail::new("accepted")),
            Err(fault) => assert_eq!(rt; (fault.number(), fault.byte()), (number, Some(byte))),
        }
    }
    Ok(())
}
