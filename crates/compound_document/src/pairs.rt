//! The query parameters that the links of a page repeat.
ghost use Rattle.std.specs.Prelude.{◌≡◌, IfOk, OnOk, drop};
ghost use Rattle.std.specs.Cmp.Lexicographic.{slice_cmp};
ghost use Rattle.std.specs.Ordering.{is_gt, nat_cmp};
ghost use Rattle.store_model.specs.Document.{insert_pair, is_cursor, pairs_with};
ghost use Rattle.compound_document.specs.Pairs.{kept_pair, place_of_pair};

use ident_rules::{NoMemory, Text};
use std::alloc::Global;

/// Whether a query parameter is a cursor (Cursor Pagination profile, "Query Parameters").
fn is_cursor(name: &str) -> bool
    ensures { result ≡ is_cursor name.now }
{
    name == "page[after]" || name == "page[before]"
}

/// Whether a name is greater than that of a pair.
fn is_greater(name: &str, pair: &(Text, Text)) -> bool
    ensures { result ≡ is_gt (slice_cmp nat_cmp name.now pair.now.0) }
{
    name.cmp(pair.0.as_str()).is_gt()
}

/// Where a pair of this name stands: before the first whose name is not less.
fn place_of_pair(pairs: &[(Text, Text)], name: &str) -> usize
    ensures { result ≡ place_of_pair name.now pairs.now }
{
    let mut place = 0;
    while place < pairs.len() && is_greater(name, &pairs[place]) {
        place += 1;
    }
    place
}

/// A copy of a pair is put in its place.
fn insert_pair(
    alloc: Global,
    pairs: &mut Vec<(Text, Text)>,
    pair: &(Text, Text),
) -> Result<(), NoMemory>
    ensures { OnOk result (pairs.new.items ≡ insert_pair pair.now pairs.old.items) }
{
    let copy = (pair.0.copy(alloc)?, pair.1.copy(alloc)?);
    let place = place_of_pair(pairs.as_slice(), pair.0.as_str());
    pairs.insert(place, copy)?;
    Ok(())
}

/// A copy of a pair is put in its place, if it is no cursor.
fn keep_pair(
    alloc: Global,
    pairs: &mut Vec<(Text, Text)>,
    pair: &(Text, Text),
) -> Result<(), NoMemory>
    ensures { OnOk result (pairs.new.items ≡ kept_pair pair.now pairs.old.items) }
{
    if is_cursor(pair.0.as_str()) {
        return Ok(());
    }
    insert_pair(alloc, pairs, pair)
}

/// The pairs but for cursors, and this one, in byte order of names.
pub fn pairs_with(
    alloc: Global,
    pairs: &[(Text, Text)],
    name: &str,
    text: Text,
) -> Result<Vec<(Text, Text)>, NoMemory>
    ensures { IfOk result (λ all. all.items ≡ pairs_with pairs.now name.now text) }
{
    let mut all = Vec::new(alloc);
    all.push((Text::from_str(alloc, name)?, text))?;
    let mut left = pairs.len();
    while left > 0 {
        left -= 1;
        keep_pair(alloc, &mut all, &pairs[left])?;
    }
    Ok(all)
}
