use ident_rules::{Id, NoMemory, Text};
use local_ids::{Bind, LocalIds};
use std::alloc::Global;
use std::test::Fail;

/// What is bound, what comes of it, and the number of the id that it stands for then.
type Row = (u32, &'static str, u64, Bind, u64);

/// Whether a local id is bound as it should be, and stands for that id then.
fn is_bound_so(lids: &mut LocalIds, alloc: Global, row: &Row) -> Result<bool, NoMemory> {
    let (kind, lid, number, want, stands) = *row;
    let free = lids.find(kind, lid).is_none();
    let told = lids.bind(kind, Text::from_str(alloc, lid)?, Id::of_number(number));
    let found = lids.find(kind, lid) == Some(Id::of_number(stands));
    Ok(free == (want == Bind::Bound) && told == want && found)
}

/// The first row that is bound otherwise than it should be, from 1 on; 0 where none is.
fn wrong_row(alloc: Global, rows: &[Row]) -> Result<usize, NoMemory> {
    let mut lids = LocalIds::new(alloc);
    let mut place = 1;
    for row in rows {
        if !is_bound_so(&mut lids, alloc, row)? {
            return Ok(place);
        }
        place = place.wrapping_add(1);
    }
    Ok(0)
}

#[test]
fn binds_local_ids(rt: HostRuntime) -> Result<(), Fail> {
    let rows = [
        (0, "a", 1, Bind::Bound, 1),
        (0, "a", 2, Bind::Taken, 1),
        (1, "a", 3, Bind::Bound, 3),
        (0, "b", 4, Bind::Bound, 4),
        (1, "a", 5, Bind::Taken, 3),
        (0, "", 1, Bind::Bound, 1),
    ];
    assert_eq!(rt; wrong_row(rt.alloc(), &rows)?, 0);
    Ok(())
}
