use crate::blogs::{ARTICLES, REPLIES, answer, blog, key};
use ident_rules::{List, NoMemory, Text};
use local_ids::LocalIds;
use resource_schema::{AttrValue, Schema};
use std::alloc::{AllocError, Global};
use std::test::Fail;
use task_forms::{Member, Named, Operation, Where, Who};
use view_reads::CellMap;

// What is done to the replies of an article.
#[derive(Clone, Copy)]
enum Act {
    Set,
    Add,
    Take,
}

fn replies(alloc: Global, numbers: &[u64]) -> Result<List<Member>, NoMemory> {
    let mut members = Vec::new(alloc);
    let mut place: u32 = 0;
    for number in numbers {
        members.push(Member {
            named: Named::Id(key(ARTICLES, *number)),
            index: Some(place),
        })?;
        place = place.wrapping_add(1);
    }
    Ok(List::from_vec(members))
}

// An operation on the replies of the first article.
fn operation(alloc: Global, act: Act, numbers: &[u64]) -> Result<Operation, NoMemory> {
    let who = Who {
        named: Named::Id(key(ARTICLES, 1)),
        place: Where::Ref,
    };
    let rel = REPLIES;
    let members = replies(alloc, numbers)?;
    match act {
        Act::Set => Ok(Operation::SetLinks { who, rel, members }),
        Act::Add => Ok(Operation::AddLinks { who, rel, members }),
        Act::Take => Ok(Operation::DropLinks { who, rel, members }),
    }
}

// The creation of an article.
fn new_article(alloc: Global) -> Result<Operation, NoMemory> {
    let mut values = Vec::new(alloc);
    values.push(AttrValue::Text(Text::from_str(alloc, "A")?))?;
    Ok(Operation::Create {
        kind: ARTICLES,
        id: None,
        lid: None,
        values: List::from_vec(values),
        links: List::from_vec(Vec::new(alloc)),
    })
}

fn numbers_from(alloc: Global, low: u64, high: u64) -> Result<Vec<u64>, AllocError> {
    let mut numbers = Vec::new(alloc);
    for number in low..high {
        numbers.push(number)?;
    }
    Ok(numbers)
}

// Articles with the numbers from 1 on.
fn articles(alloc: Global, schema: &Schema, count: u64) -> Result<CellMap, NoMemory> {
    let mut cells = CellMap::new(alloc);
    let new = new_article(alloc)?;
    for _ in 0..count {
        let mut lids = LocalIds::new(alloc);
        answer(alloc, schema, &mut lids, &new, &mut cells)?;
    }
    Ok(cells)
}

// The first change of the replies that is answered otherwise than it should, from 1 on; 0 where none is. Each has the numbers
// from which to below which.
fn wrong_count(alloc: Global, rows: &[(Act, u64, u64, &str)]) -> Result<usize, NoMemory> {
    let schema = blog(alloc)?;
    let mut cells = articles(alloc, &schema, 1_001)?;
    let mut place = 1;
    for (act, low, high, want) in rows {
        let numbers = numbers_from(alloc, *low, *high)?;
        let operation = operation(alloc, *act, numbers.as_slice())?;
        let mut lids = LocalIds::new(alloc);
        let told = answer(alloc, &schema, &mut lids, &operation, &mut cells)?;
        if told.as_str() != *want {
            return Ok(place);
        }
        place = place.wrapping_add(1);
    }
    Ok(0)
}

#[test]
fn counts_members_together(rt: HostRuntime) -> Result<(), Fail> {
    let refused = "too-many-members /at/data";
    let rows = [
        (Act::Set, 1, 1_002, refused),
        (Act::Set, 1, 1_001, "done"),
        (Act::Add, 5, 9, "done"),
        (Act::Add, 1_001, 1_002, refused),
        (Act::Take, 999, 1_001, "done"),
        (Act::Add, 990, 1_001, "done"),
    ];
    assert_eq!(rt; wrong_count(rt.alloc(), &rows)?, 0);
    Ok(())
}
