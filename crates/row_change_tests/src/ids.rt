use crate::blogs::{ARTICLES, PEOPLE, answer, blog};
use ident_rules::{Id, List, NoMemory, Text};
use local_ids::LocalIds;
use std::alloc::Global;
use std::test::Fail;
use task_forms::Operation;
use view_reads::CellMap;
use world_cells::{Cell, CellKey, LAST_NEXT_ID, WriteSet, Written};

// A creation without values and links.
fn creation(
    alloc: Global,
    kind: u32,
    id: Option<Id>,
    lid: Option<&str>,
) -> Result<Operation, NoMemory> {
    let lid = match lid {
        Some(lid) => Some(Text::from_str(alloc, lid)?),
        None => None,
    };
    Ok(Operation::Create {
        kind,
        id,
        lid,
        values: List::from_vec(Vec::new(alloc)),
        links: List::from_vec(Vec::new(alloc)),
    })
}

// Cells in which the next id of articles is that one.
fn counted(alloc: Global, next: u64) -> Result<CellMap, NoMemory> {
    let mut cells = Vec::new(alloc);
    cells.push(Written {
        key: CellKey::Counter(ARTICLES),
        cell: Some(Cell::Counter(next)),
    })?;
    let mut map = CellMap::new(alloc);
    map.apply(WriteSet {
        cells: List::from_vec(cells),
    })?;
    Ok(map)
}

// Whether the last id is given, and then none.
fn ends_ids(alloc: Global) -> Result<bool, NoMemory> {
    let schema = blog(alloc)?;
    let mut cells = counted(alloc, LAST_NEXT_ID - 1)?;
    let mut lids = LocalIds::new(alloc);
    let new = creation(alloc, ARTICLES, None, None)?;
    let last = answer(alloc, &schema, &mut lids, &new, &mut cells)?;
    let none = answer(alloc, &schema, &mut lids, &new, &mut cells)?;
    Ok(last.as_str() == "done 9223372036854775806" && none.as_str() == "ids-ended")
}

#[test]
fn gives_ids_to_the_last(rt: HostRuntime) -> Result<(), Fail> {
    assert!(rt; ends_ids(rt.alloc())?);
    Ok(())
}

// The first creation that is answered otherwise than it should, from 1 on; 0 where none is.
fn wrong_binding(alloc: Global) -> Result<usize, NoMemory> {
    let schema = blog(alloc)?;
    let mut cells = CellMap::new(alloc);
    let mut lids = LocalIds::new(alloc);
    // the type, the number of the client's id, the local id, and the answer
    let rows = [
        (PEOPLE, 1, Some("a"), "done 1"),
        (PEOPLE, 2, Some("a"), "lid-bound /at/data/lid"),
        (PEOPLE, 1, Some("a"), "lid-bound /at/data/lid"),
        (PEOPLE, 1, Some("b"), "id-exists /at/data/id"),
        (PEOPLE, 2, Some("b"), "done 2"),
        (PEOPLE, 3, None, "done 3"),
    ];
    for (place, (kind, number, lid, want)) in rows.into_iter().enumerate() {
        let new = creation(alloc, kind, Some(Id::of_number(number)), lid)?;
        let told = answer(alloc, &schema, &mut lids, &new, &mut cells)?;
        if told.as_str() != want {
            return Ok(place + 1);
        }
    }
    Ok(0)
}

#[test]
fn binds_local_ids_once(rt: HostRuntime) -> Result<(), Fail> {
    assert_eq!(rt; wrong_binding(rt.alloc())?, 0);
    Ok(())
}
