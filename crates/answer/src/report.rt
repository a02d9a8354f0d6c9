// The text that is printed.
ghost use Rattle.answer.specs.Report.{ReportMeans, StreamReportMeans, TextMeans, answers_text, report_of, stream_report_of};
ghost use Rattle.formats.specs.Lines.{row_lines};
ghost use Rattle.query.specs.Answering.{rows_in};
ghost use Rattle.std.specs.Prelude.{◌≡◌, ◌++◌, IfOk, string_bytes, OnOk};

use formats::{
    behind, numbers, push_impossible, push_refusal, push_row, query_behind, rules_behind,
    split_first,
};
use query::certain_answers;
use std::alloc::{AllocError, Global};

// Room for the count of the answers and 16,384 answers of four values.
const ROOM: usize = 65537;

// The first `count` rows of a width, a line each.
fn push_rows(
    out: &mut String,
    rows: &[u64],
    width: usize,
    count: usize,
    c: u64,
) -> Result<(), AllocError>
    ensures { OnOk result (string_bytes out.new ≡ string_bytes out.old ++ row_lines c (rows_in width count rows.now)) }
{
    // No chunks: the width may be 0, and `rows` may hold fewer than `count`.
    let mut rest = rows;
    for _ in 0..count {
        let (row, after) = rest.split_at(width.min(rest.len()));
        push_row(out, row, c)?;
        rest = after;
    }
    Ok(())
}

// Appends the certain answers of the query, a line each, or why there are none.
fn push_answers(
    out: &mut String,
    facts: &[u64],
    rules: &[u64],
    query: &[u64],
    c: u64,
) -> Result<(), AllocError>
    ensures text { OnOk result (string_bytes out.new ≡ string_bytes out.old ++ answers_text facts.now rules.now query.now c) }
    ensures means { TextMeans facts.now rules.now query.now c (answers_text facts.now rules.now query.now c) }
{
    let mut room = [0; ROOM];
    match certain_answers(facts, rules, query, &mut room, c) {
        Ok(Some(count)) => {
            let (width, _) = split_first(query);
            push_rows(out, behind(&room, 1), width as usize, count as usize, c)
        }
        Ok(None) => push_impossible(out),
        Err(refusal) => push_refusal(out, refusal.number(), refusal.place()),
    }
}

// The text for a file of facts, behind the first null, a file of rules and one of a query.
pub fn report(heap: Global, facts: &[u8], rules: &[u8], query: &[u8]) -> Result<String, AllocError>
    ensures text { IfOk result (λ t. string_bytes t ≡ report_of facts.now rules.now query.now) }
    ensures means { IfOk result (λ t. ReportMeans facts.now rules.now query.now (string_bytes t)) }
{
    let facts = numbers(heap, facts)?;
    let rules = numbers(heap, rules)?;
    let query = numbers(heap, query)?;
    let (c, row) = split_first(facts.as_slice());
    let mut text = String::new(heap);
    push_answers(&mut text, row, rules.as_slice(), query.as_slice(), c)?;
    Ok(text)
}

// The text for one stream, where the rules stand behind the facts and the query behind the rules.
pub fn stream_report(heap: Global, bytes: &[u8]) -> Result<String, AllocError>
    ensures text { IfOk result (λ t. string_bytes t ≡ stream_report_of bytes.now) }
    ensures means { IfOk result (λ t. StreamReportMeans bytes.now (string_bytes t)) }
{
    let rules = rules_behind(bytes);
    report(heap, bytes, rules, query_behind(rules))
}

#[cfg(test)]
mod tests {
    use super::report;
    use std::test::Fail;

    #[test]
    fn bad_inputs(rt: HostRuntime) -> Result<(), Fail> {
        let heap = rt.alloc();
        let empty = report(heap, &[], &[], &[])?;
        assert!(rt; empty.as_str() == "refused 1 at 64\n");
        let no_query = report(heap, &[100, 0, 0, 0, 0, 0, 0, 0], &[0, 0, 0, 0], &[])?;
        assert!(rt; no_query.as_str() == "refused 6 at 3\n");
        Ok(())
    }
}
