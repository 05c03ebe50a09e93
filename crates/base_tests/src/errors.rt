use error_objects::{Blame, Code, Refusal, error_reply};
use ident_rules::{NoMemory, Text};
use std::alloc::Global;
use std::test::Fail;

// A refusal that blames nothing, a header, a place or a parameter.
fn refusal(alloc: Global, row: usize) -> Result<Refusal, NoMemory> {
    let (code, blame) = match row {
        0 => (Code::NotFound, Blame::Nothing),
        1 => {
            let name = Text::from_str(alloc, "Content-Type")?;
            (Code::UnsupportedMediaType, Blame::Header(name))
        }
        2 => {
            let pointer = Text::from_str(alloc, "/atomic:operations/2/data/0/id")?;
            (Code::RelatedNotFound, Blame::Pointer(pointer))
        }
        _ => {
            let name = Text::from_str(alloc, "page[size]")?;
            (Code::BadPageSize, Blame::Parameter(name))
        }
    };
    Ok(Refusal { code, blame })
}

// The first row whose reply is not what it should be.
fn first_wrong(alloc: Global, rows: &[(u16, &str)]) -> Result<Option<usize>, NoMemory> {
    for (row, (status, body)) in rows.iter().enumerate() {
        let reply = error_reply(alloc, &refusal(alloc, row)?)?;
        if reply.status != *status || reply.body.as_slice() != body.as_bytes() {
            return Ok(Some(row));
        }
    }
    Ok(None)
}

#[test]
fn writes_error_documents(rt: HostRuntime) -> Result<(), Fail> {
    let rows = [
        (
            404,
            r#"{"errors":[{"code":"not-found","status":"404","title":"Not found"}]}"#,
        ),
        (
            415,
            r#"{"errors":[{"code":"unsupported-media-type","source":{"header":"Content-Type"},"status":"415","title":"Unsupported media type"}]}"#,
        ),
        (
            404,
            r#"{"errors":[{"code":"related-not-found","source":{"pointer":"/atomic:operations/2/data/0/id"},"status":"404","title":"Related resource not found"}]}"#,
        ),
        (
            400,
            r#"{"errors":[{"code":"bad-page-size","source":{"parameter":"page[size]"},"status":"400","title":"Unsupported page size"}]}"#,
        ),
    ];
    let wrong = first_wrong(rt.alloc(), rows.as_slice())?;
    assert_eq!(rt; wrong, None);
    Ok(())
}
