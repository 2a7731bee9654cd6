//! Recipes: their steps, or why they are refused.
use recipe::{Fault, read};

/// Prints the steps of a recipe of one line, or the refusal with a caret under the byte.
pub(crate) fn explain(rt: &HostRuntime, line: &str) -> anyhow::Result<()> {
    println!(rt; "recipe {line}")?;
    let mut script = String::from_str(rt.alloc(), line)?;
    script.push('\n')?;
    match read(script.as_bytes()) {
        Ok(recipe) => {
            for step in recipe.steps() {
                println!(rt; "  {step:?}")?;
            }
            Ok(())
        }
        Err(fault) => refuse(rt, fault),
    }
}

/// A line with a caret, and one that says why.
// Beside the one for words: one points at a byte, and the other names a word.
fn refuse(rt: &HostRuntime, fault: Fault) -> anyhow::Result<()> {
    let number = fault.number();
    match fault.byte() {
        Some(byte) => {
            // A space for each byte before it.
            for _ in 0..byte {
                print!(rt; " ")?;
            }
            println!(rt; "       ^")?;
            println!(rt; "refused {number} byte {byte}: {fault}")?;
        }
        None => println!(rt; "refused {number}: {fault}")?,
    }
    Ok(())
}
