// The text that is printed.
ghost use Rattle.exchange.specs.Report.{ReportMeans, StreamReportMeans, TextMeans, report_of, request_text, stream_report_of};
ghost use Rattle.relational.specs.Readings.{request_reading};
ghost use Rattle.std.specs.Prelude.{◌≡◌, ◌++◌, IfOk, string_bytes, OnOk};

use chase::move_facts;
use formats::{numbers, push_facts, push_impossible, push_refusal, rules_behind, split_first};
use relational::INSTANCE_LEN;
use std::alloc::{AllocError, Global};

// Appends what a move of the facts is answered with: the facts of the universal solution, a line each, or why there is none.
fn push_move(out: &mut String, facts: &[u64], rules: &[u64], c: u64) -> Result<(), AllocError>
    ensures text { OnOk result (string_bytes out.new ≡ string_bytes out.old ++ request_text c (request_reading facts.now rules.now 1921 c)) }
    ensures means { TextMeans c (request_reading facts.now rules.now 1921 c) (request_text c (request_reading facts.now rules.now 1921 c)) }
{
    let mut row = [0; INSTANCE_LEN];
    match move_facts(facts, rules, &mut row, c) {
        Ok(Some(count)) => push_facts(out, &row, count as usize, c),
        Ok(None) => push_impossible(out),
        Err(refusal) => push_refusal(out, refusal.number(), refusal.place()),
    }
}

// The text for a file of facts, behind the first null, and a file of rules.
pub fn report(heap: Global, facts: &[u8], rules: &[u8]) -> Result<String, AllocError>
    ensures text { IfOk result (λ t. string_bytes t ≡ report_of facts.now rules.now) }
    ensures means { IfOk result (λ t. ReportMeans facts.now rules.now (string_bytes t)) }
{
    let facts = numbers(heap, facts)?;
    let rules = numbers(heap, rules)?;
    let (c, row) = split_first(facts.as_slice());
    let mut text = String::new(heap);
    push_move(&mut text, row, rules.as_slice(), c)?;
    Ok(text)
}

// The text for one stream, where the rules stand behind the facts.
pub fn stream_report(heap: Global, bytes: &[u8]) -> Result<String, AllocError>
    ensures text { IfOk result (λ t. string_bytes t ≡ stream_report_of bytes.now) }
    ensures means { IfOk result (λ t. StreamReportMeans bytes.now (string_bytes t)) }
{
    report(heap, bytes, rules_behind(bytes))
}

#[cfg(test)]
mod tests {
    use super::report;
    use std::test::Fail;

    #[test]
    fn bad_inputs(rt: HostRuntime) -> Result<(), Fail> {
        let heap = rt.alloc();
        let empty = report(heap, &[], &[])?;
        assert!(rt; empty.as_str() == "refused 1 at 64\n");
        let cut_in_a_number = report(heap, &[100, 0, 0, 0, 1, 0, 0, 0, 5, 0], &[])?;
        assert!(rt; cut_in_a_number.as_str() == "refused 1 at 0\n");
        let too_many = report(heap, &[100, 0, 0, 0, 65, 0, 0, 0], &[])?;
        assert!(rt; too_many.as_str() == "refused 1 at 64\n");
        Ok(())
    }
}
