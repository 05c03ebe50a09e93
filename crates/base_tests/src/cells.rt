use ident_rules::{Id, Key, List, NoMemory};
use std::alloc::Global;
use std::test::Fail;
use world_cells::{CellKey, Link, Row, Span};

fn key(kind: u32, number: u64) -> Key {
    Key {
        kind,
        id: Id::of_number(number),
    }
}

fn back() -> CellKey {
    CellKey::Back {
        to: key(0, 1),
        from: key(1, 2),
        rel: 3,
    }
}

// A copy of a row with a link of each kind.
fn copied_row(alloc: Global) -> Result<Row, NoMemory> {
    let mut ids = Vec::new(alloc);
    ids.push(Id::of_number(9))?;
    let mut links = Vec::new(alloc);
    links.push(Link::One(None))?;
    links.push(Link::Many(List::from_vec(ids)))?;
    let row = Row {
        key: key(2, 3),
        values: List::from_vec(Vec::new(alloc)),
        links: List::from_vec(links),
    };
    row.copy(alloc)
}

fn span() -> Span {
    Span::Backs {
        to: key(0, 1),
        after: Some((key(1, 2), 3)),
    }
}

#[test]
fn copies_with_ample_memory(rt: HostRuntime) -> Result<(), Fail> {
    let row = copied_row(rt.alloc())?;
    assert_eq!(rt; row.links.as_slice().len(), 2);
    let found = back().copy(rt.alloc())?;
    assert!(rt; found == back());
    assert!(rt; span().copy(rt.alloc()).is_ok());
    Ok(())
}
