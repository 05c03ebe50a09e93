//! Queries of a collection of articles, which have nine integers beside their title and draft, and of people, who have a boss.
use error_objects::{Blame, Read, Refusal};
use ident_rules::NoMemory;
use json_forms::parse;
use query_families::read_query;
use resource_schema::{Schema, Target};
use schema_file::read_schema;
use std::alloc::{AllocError, Global};
use std::test::Fail;

const ARTICLES: &str = "{\"types\":{\"articles\":{\"attributes\":{\
\"a\":{\"type\":\"int\"},\"b\":{\"type\":\"int\"},\"c\":{\"type\":\"int\"},\"d\":{\"type\":\"int\"},\"e\":{\"type\":\"int\"},\
\"f\":{\"type\":\"int\"},\"g\":{\"type\":\"int\"},\"h\":{\"type\":\"int\"},\"i\":{\"type\":\"int\"},\
\"draft\":{\"type\":\"bool\",\"nullable\":true},\"title\":{\"type\":\"text\"}},\
\"relationships\":{\"author\":{\"kind\":\"one\",\"target\":\"people\"},\"readers\":{\"kind\":\"many\",\"target\":\"people\"}}},\
\"people\":{\"attributes\":{\"name\":{\"type\":\"text\"}},\"relationships\":{\"boss\":{\"kind\":\"one\",\"target\":\"people\"}}}}}";

// A query a line, and what it comes to: `read`, or the code and the parameter of its refusal. First names and values as a web form writes
// them, and which of two faults is told; then sizes and orders; paths and fields; and cursors: of `["2"]`, padded, `[ "2"]`, `["a b"]`, bytes
// that are not UTF-8; by title `["T","2"]`, with an escape that it does not need, `[1,"2"]` and `[null,"2"]`; by an integer `[1,"2"]`,
// `[1.0,"2"]` and 2^63; by draft.
const QUERIES: &str = " => read\n\
&& => read\n\
page%5Bsize%5D=2&sort=title%2Ca => read\n\
pa+ge[size]=1 => unknown-parameter pa ge[size]\n\
sort=+title => bad-sort sort\n\
%FF=1 => unknown-parameter \u{FFFD}\n\
fields[%FF]=a => bad-fields fields[\u{FFFD}]\n\
=1 => unknown-parameter \n\
Sort=title => unknown-parameter Sort\n\
sort=x&include=x => bad-sort sort\n\
x&x => unknown-parameter x\n\
sort=a&sort=x => repeated-parameter sort\n\
page[before]=x&page[after]=y => bad-cursor page[after]\n\
page[before]=x&sort=x => bad-sort sort\n\
page[size]=0 => bad-page-size page[size]\n\
page[size]=1 => read\n\
page[size]=200 => read\n\
page[size]=201 => read\n\
page[size]=1000 => read\n\
page[size]=1001 => bad-page-size page[size]\n\
page[size]=1234567890 => bad-page-size page[size]\n\
page[size]=%2B5 => bad-page-size page[size]\n\
page[size]=000000005 => read\n\
page[size]=0000000005 => bad-page-size page[size]\n\
page[size]= => bad-page-size page[size]\n\
sort=a,b,c,d,e,f,g,h => read\n\
sort=a,b,c,d,e,f,g,h,i => bad-sort sort\n\
sort=a,a => bad-sort sort\n\
sort=a,b,-a => bad-sort sort\n\
sort=author => bad-sort sort\n\
sort=a, => bad-sort sort\n\
sort= => bad-sort sort\n\
sort=- => bad-sort sort\n\
sort=--a => bad-sort sort\n\
include= => read\n\
include=author,author,author,author,author,author,author,author,author,author,author,author,author,author,author,author => read\n\
include=author,author,author,author,author,author,author,author,author,author,author,author,author,author,author,author,author => bad-include include\n\
include=author.boss.boss.boss.boss.boss.boss.boss => read\n\
include=author.boss.boss.boss.boss.boss.boss.boss.boss => bad-include include\n\
include=author,,readers => bad-include include\n\
include=author. => bad-include include\n\
include=author.name => bad-include include\n\
include=title.boss => bad-include include\n\
fields[articles]=a,author,a&fields[people]= => read\n\
fields[articles]=name => bad-fields fields[articles]\n\
fields[articles]=a,,b => bad-fields fields[articles]\n\
fields[tags]=a => bad-fields fields[tags]\n\
fields[articles]x=a => unknown-parameter fields[articles]x\n\
page[after]=WyIyIl0 => read\n\
page[after]=WyIyIl0%3D => bad-cursor page[after]\n\
page[after]=WyIyIl0= => bad-cursor page[after]\n\
page[before]=WyAiMiJd => bad-cursor page[before]\n\
page[after]=WyJhIGIiXQ => bad-cursor page[after]\n\
page[after]=WyL_Il0 => bad-cursor page[after]\n\
page[after]=WyJUIiwiMiJd&sort=title => read\n\
page[after]=WyJUIiwiMiJd => bad-cursor page[after]\n\
sort=title&page[after]=WyJcdTAwNTQiLCIyIl0 => bad-cursor page[after]\n\
sort=title&page[after]=WzEsIjIiXQ => bad-cursor page[after]\n\
sort=title&page[after]=W251bGwsIjIiXQ => bad-cursor page[after]\n\
sort=-i&page[after]=WzEsIjIiXQ&page[before]=WzEsIjIiXQ => read\n\
sort=i&page[after]=WzEuMCwiMiJd => bad-cursor page[after]\n\
sort=i&page[after]=WzkyMjMzNzIwMzY4NTQ3NzU4MDgsIjIiXQ => bad-cursor page[after]\n\
sort=draft&page[after]=W251bGwsIjIiXQ => read";

// The schema; articles are its first type.
fn articles(alloc: Global) -> Result<Option<Schema>, NoMemory> {
    match parse(alloc, ARTICLES.as_bytes())? {
        Some(value) => Ok(read_schema(alloc, &value).ok()),
        None => Ok(None),
    }
}

fn refusal_words(alloc: Global, refusal: &Refusal) -> Result<String, AllocError> {
    let code = refusal.code.word();
    match &refusal.blame {
        Blame::Parameter(name) => format!(in alloc; "{code} {}", name.as_str()),
        _ => String::from_str(alloc, code),
    }
}

fn told(alloc: Global, schema: &Schema, query: &str) -> Result<String, AllocError> {
    match read_query(alloc, schema, &Target::Collection(0), query) {
        Read::Good(_) => String::from_str(alloc, "read"),
        Read::Refused(refusal) => refusal_words(alloc, &refusal),
        Read::NoMemory => Err(AllocError),
    }
}

// The first query that comes to another thing than it should, from 1 on; 0 where none does.
fn first_wrong(alloc: Global, schema: &Schema) -> Result<usize, AllocError> {
    let mut place = 0_usize;
    for line in QUERIES.lines() {
        place = place.wrapping_add(1);
        let Some((query, want)) = line.split_once(" => ") else {
            return Ok(place);
        };
        if told(alloc, schema, query)?.as_str() != want {
            return Ok(place);
        }
    }
    Ok(0)
}

#[test]
fn reads_queries(rt: HostRuntime) -> Result<(), Fail> {
    let alloc = rt.alloc();
    let Some(schema) = articles(alloc)? else {
        return Err(Fail::from(NoMemory));
    };
    assert_eq!(rt; first_wrong(alloc, &schema)?, 0);
    Ok(())
}
