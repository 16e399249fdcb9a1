//! Texts that tests give, beside those that they say.
#![tactic(auto)]

ghost use Rattle.std.specs.Prelude.{◌≡◌, ◌↔◌, IfOk, IsOk};

use std::alloc::Global;
use std::fmt;
use std::test::Fail;

/// It is an error, with both texts, where a row gives another text than it says.
pub fn is_told(text: &str, wanted: &str) -> Result<(), Fail>
    ensures same { IfOk result (λ _. text.now ≡ wanted.now) }
    ensures honest { IsOk result ↔ (text.now ≡ wanted.now) }
{
    if text != wanted {
        return Err(Fail::new(format_args!("{text}, and not {wanted}")));
    }
    Ok(())
}

/// It is an error, with the text, where the row of this number gives another one than it says.
pub fn row_is_told(row: usize, text: &str, wanted: &str) -> Result<(), Fail>
    ensures same { IfOk result (λ _. text.now ≡ wanted.now) }
    ensures honest { IsOk result ↔ (text.now ≡ wanted.now) }
{
    if text == wanted {
        return Ok(());
    }
    Err(Fail::new(format_args!("row {row}: {text}, and not {wanted}")))
}

/// It is an error, with the text, where a step of the row of this number gives another one than it says. Both count from 0.
pub fn step_is_told(row: usize, step: usize, text: &str, wanted: &str) -> Result<(), Fail>
    ensures same { IfOk result (λ _. text.now ≡ wanted.now) }
    ensures honest { IsOk result ↔ (text.now ≡ wanted.now) }
{
    if text == wanted {
        return Ok(());
    }
    Err(Fail::new(format_args!("step {step} of row {row}: {text}, and not {wanted}")))
}

/// It is an error, with the row's number and the text, where an error has another text than its row says. Rows count from 0.
pub fn are_told<E: fmt::Display>(alloc: Global, rows: &[(E, &str)]) -> Result<(), Fail> {
    for (row, (error, wanted)) in rows.iter().enumerate() {
        let text = format!(in alloc; "{error}")?;
        row_is_told(row, text.as_str(), wanted)?;
    }
    Ok(())
}
