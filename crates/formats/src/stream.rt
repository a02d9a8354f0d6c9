// Facts, rules and a query on one stream.
ghost use Rattle.formats.specs.Bytes.{numbers_of};
ghost use Rattle.formats.specs.Stream.{facts_ahead, query_behind, rules_ahead, rules_behind, up_to};
ghost use Rattle.std.specs.Prelude.{◌≡◌, slice_index};

use crate::slices::behind;

// The number that `bytes` begin with, or 0 where it is missing or above `most`.
fn count_up_to(bytes: &[u8], most: u32) -> usize
    ensures { result ≡ up_to most (slice_index (numbers_of bytes.now) 0) }
{
    let count = bytes
        .first_chunk()
        .map_or(0, |four| u32::from_le_bytes(*four));
    if count <= most { count as usize } else { 0 }
}

// How many facts stand ahead of the rules, or 0 where the count is missing or above 64.
fn facts_ahead(bytes: &[u8]) -> usize
    ensures { result ≡ facts_ahead bytes.now }
{
    count_up_to(behind(bytes, 4), 64)
}

// The bytes behind the first null, the count of facts and the facts.
pub fn rules_behind(bytes: &[u8]) -> &[u8]
    ensures { result.now ≡ rules_behind bytes.now }
{
    behind(bytes, 4 * (2 + 6 * facts_ahead(bytes)))
}

// How many rules stand ahead of the query, or 0 where the count is missing or above 16.
fn rules_ahead(bytes: &[u8]) -> usize
    ensures { result ≡ rules_ahead bytes.now }
{
    count_up_to(bytes, 16)
}

// The bytes behind the count of rules and the rules.
pub fn query_behind(bytes: &[u8]) -> &[u8]
    ensures { result.now ≡ query_behind bytes.now }
{
    behind(bytes, 4 * (1 + 53 * rules_ahead(bytes)))
}
