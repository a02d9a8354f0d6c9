// Values, facts and refusals as text. Only want of memory keeps a text from being appended.
ghost use Rattle.formats.specs.Lines.{fact_line, fact_lines, impossible_line, refusal_line, row_line, value_text, values_text};
ghost use Rattle.relational.specs.Layout.{fact_in, facts_in};
ghost use Rattle.std.specs.Prelude.{◌≡◌, ◌++◌, string_bytes, OnOk};

use crate::slices::behind;
use relational::fact_values;
use std::alloc::AllocError;

// A constant as its number, a null counted from `c` behind a question mark.
pub fn push_value(out: &mut String, n: u64, c: u64) -> Result<(), AllocError>
    ensures { OnOk result (string_bytes out.new ≡ string_bytes out.old ++ value_text c n) }
{
    if n < c {
        write!(out, "{n}")
    } else {
        let null = n - c;
        write!(out, "?{null}")
    }
}

// Each value behind a blank.
fn push_values(out: &mut String, values: &[u64], c: u64) -> Result<(), AllocError>
    ensures { OnOk result (string_bytes out.new ≡ string_bytes out.old ++ values_text c values.now) }
{
    for value in values {
        write!(out, " ")?;
        push_value(out, *value, c)?;
    }
    Ok(())
}

// The fact that `fact` begins with, on a line of its own.
pub fn push_fact(out: &mut String, fact: &[u64], c: u64) -> Result<(), AllocError>
    ensures { OnOk result (string_bytes out.new ≡ string_bytes out.old ++ fact_line c (fact_in fact.now)) }
{
    let relation = fact.first().copied().unwrap_or(0);
    write!(out, "{relation}:")?;
    push_values(out, fact_values(fact), c)?;
    writeln!(out)
}

// The first `count` facts of `row`, which stand behind its first number.
pub fn push_facts(out: &mut String, row: &[u64], count: usize, c: u64) -> Result<(), AllocError>
    ensures { OnOk result (string_bytes out.new ≡ string_bytes out.old ++ fact_lines c (facts_in row.now count)) }
{
    // No chunks of six: a fact may have more than four values, and the row fewer facts than `count`.
    let mut rest = behind(row, 1);
    for _ in 0..count {
        push_fact(out, rest, c)?;
        rest = behind(rest, 6);
    }
    Ok(())
}

// The values of a row with one blank between them, on a line of their own.
pub fn push_row(out: &mut String, row: &[u64], c: u64) -> Result<(), AllocError>
    ensures { OnOk result (string_bytes out.new ≡ string_bytes out.old ++ row_line c row.now) }
{
    if let [first, rest @ ..] = row {
        push_value(out, *first, c)?;
        push_values(out, rest, c)?;
    }
    writeln!(out)
}

// The line of a refusal.
pub fn push_refusal(out: &mut String, number: u64, place: u64) -> Result<(), AllocError>
    ensures { OnOk result (string_bytes out.new ≡ string_bytes out.old ++ refusal_line number place) }
{
    writeln!(out, "refused {number} at {place}")
}

// The line that says that there is no solution.
pub fn push_impossible(out: &mut String) -> Result<(), AllocError>
    ensures { OnOk result (string_bytes out.new ≡ string_bytes out.old ++ impossible_line) }
{
    writeln!(out, "impossible")
}

#[cfg(test)]
mod tests {
    use super::{push_facts, push_refusal, push_row};
    use std::test::Fail;

    #[test]
    fn a_line_a_row(rt: HostRuntime) -> Result<(), Fail> {
        let mut text = String::new(rt.alloc());
        push_row(&mut text, &[50, 70], 100)?;
        push_row(&mut text, &[], 100)?;
        assert!(rt; text.as_str() == "50 70\n\n");
        Ok(())
    }

    #[test]
    fn a_line_a_fact(rt: HostRuntime) -> Result<(), Fail> {
        let row = [2, 10, 2, 1, 100, 0, 0, 11, 0, 9, 9, 9, 9];
        let mut text = String::new(rt.alloc());
        push_facts(&mut text, &row, 2, 100)?;
        push_refusal(&mut text, 1, 64)?;
        assert!(rt; text.as_str() == "10: 1 ?0\n11:\nrefused 1 at 64\n");
        Ok(())
    }
}
