//! Where a record is refused, and why: a row for each way in which a field of it can fail.

use crate::{
    Acl, CheckRequest, CreateRequest, DeleteRequest, PathOnly, PathWatch, ReplyHeader,
    RequestHeader, SetAclRequest, SetContentRequest, SetWatches, Stat,
};
use jute_core::{Cursor, NotRead, Reason, Refusal};
use std::alloc::Global;

#[derive(Clone, Copy)]
enum Kind {
    RequestHeader,
    ReplyHeader,
    Stat,
    Acl,
    PathOnly,
    PathWatch,
    Delete,
    Check,
    SetContent,
    Create,
    SetAcl,
    SetWatches,
}

fn read(alloc: Global, kind: Kind, cursor: &mut Cursor<'_>) -> Result<(), NotRead> {
    match kind {
        Kind::RequestHeader => {
            RequestHeader::read(cursor)?;
        }
        Kind::ReplyHeader => {
            ReplyHeader::read(cursor)?;
        }
        Kind::Stat => {
            Stat::read(cursor)?;
        }
        Kind::Acl => {
            Acl::read(alloc, cursor)?;
        }
        Kind::PathOnly => {
            PathOnly::read(alloc, cursor)?;
        }
        Kind::PathWatch => {
            PathWatch::read(alloc, cursor)?;
        }
        Kind::Delete => {
            DeleteRequest::read(alloc, cursor)?;
        }
        Kind::Check => {
            CheckRequest::read(alloc, cursor)?;
        }
        Kind::SetContent => {
            SetContentRequest::read(alloc, cursor)?;
        }
        Kind::Create => {
            CreateRequest::read(alloc, cursor)?;
        }
        Kind::SetAcl => {
            SetAclRequest::read(alloc, cursor)?;
        }
        Kind::SetWatches => {
            SetWatches::read(alloc, cursor)?;
        }
    }
    Ok(())
}

// The refusal of a body after which the cursor stands where it stood.
fn refusal(alloc: Global, kind: Kind, body: &[u8]) -> Option<NotRead> {
    if body.len() > 100 {
        return None;
    }
    let mut cursor = Cursor::new(body);
    let fault = read(alloc, kind, &mut cursor).err();
    if cursor.place() == 0 { fault } else { None }
}

#[test]
fn refuses_a_stat_at_the_field_that_is_cut(rt: HostRuntime) {
    let zeros = [0u8; 68];
    for place in [0, 8, 16, 24, 32, 36, 40, 44, 52, 56, 60] {
        for end in [place, place + 3] {
            let (body, _) = zeros.split_at(end);
            let cut = Refusal {
                place: place as u32,
                reason: Reason::Short,
            };
            assert_eq!(rt;
                refusal(rt.alloc(), Kind::Stat, body),
                Some(NotRead::Refused(cut))
            );
        }
    }
}

#[test]
fn refuses_a_record_at_its_path(rt: HostRuntime) {
    let kinds = [
        Kind::PathOnly,
        Kind::PathWatch,
        Kind::Delete,
        Kind::Check,
        Kind::SetContent,
        Kind::Create,
        Kind::SetAcl,
    ];
    for kind in kinds {
        let table: [(&[u8], u32, Reason); 6] = [
            (b"", 0, Reason::Short),
            (b"\0\0\0", 0, Reason::Short),
            (b"\0\0\0\x02/", 4, Reason::Short),
            (b"\xff\xff\xff\xff\0\0\0\0", 0, Reason::BadLength),
            (b"\xff\xff\xff\xfe\0\0\0\0", 0, Reason::BadLength),
            (b"\0\0\0\x03/a\xff\0\0\0\0", 4, Reason::BadUtf8),
        ];
        for (body, place, reason) in table {
            assert_eq!(rt;
                refusal(rt.alloc(), kind, body),
                Some(NotRead::Refused(Refusal { place, reason })),
                "{body:?}"
            );
        }
    }
}

#[test]
fn refuses_a_header_or_a_record_behind_its_path(rt: HostRuntime) {
    let table: [(Kind, &[u8], u32, Reason); 19] = [
        (Kind::RequestHeader, b"\0\0\0", 0, Reason::Short),
        (Kind::RequestHeader, b"\0\0\0\x01\0\0\0", 4, Reason::Short),
        (Kind::ReplyHeader, b"\0\0\0", 0, Reason::Short),
        (
            Kind::ReplyHeader,
            b"\0\0\0\x01\0\0\0\0\0\0\0",
            4,
            Reason::Short,
        ),
        (
            Kind::ReplyHeader,
            b"\0\0\0\x01\0\0\0\0\0\0\0\x02\0\0\0",
            12,
            Reason::Short,
        ),
        (Kind::PathWatch, b"\0\0\0\x01/", 5, Reason::Short),
        (Kind::PathWatch, b"\0\0\0\x01/\x02", 5, Reason::BadBool),
        (Kind::Delete, b"\0\0\0\x01/\0\0\0", 5, Reason::Short),
        (Kind::Check, b"\0\0\0\x02/a\0\0\0", 6, Reason::Short),
        (Kind::SetContent, b"\0\0\0\x01/\0\0\0", 5, Reason::Short),
        (
            Kind::SetContent,
            b"\0\0\0\x01/\0\0\0\x02a",
            9,
            Reason::Short,
        ),
        (
            Kind::SetContent,
            b"\0\0\0\x01/\xff\xff\xff\xfe",
            5,
            Reason::BadLength,
        ),
        (
            Kind::SetContent,
            b"\0\0\0\x01/\0\0\0\x01a\0\0\0",
            10,
            Reason::Short,
        ),
        (
            Kind::SetContent,
            b"\0\0\0\x01/\xff\xff\xff\xff\0\0\0",
            9,
            Reason::Short,
        ),
        (Kind::SetAcl, b"\0\0\0\x01/\0\0\0", 5, Reason::Short),
        (
            Kind::SetAcl,
            b"\0\0\0\x01/\xff\xff\xff\xfe",
            5,
            Reason::BadLength,
        ),
        (
            Kind::SetAcl,
            b"\0\0\0\x01/\0\0\0\x01\0\0\0\x1f\0\0\0\x02w",
            17,
            Reason::Short,
        ),
        (
            Kind::SetAcl,
            b"\0\0\0\x01/\0\0\0\x01\0\0\0\x1f\0\0\0\x01\xff",
            17,
            Reason::BadUtf8,
        ),
        (
            Kind::SetAcl,
            b"\0\0\0\x01/\xff\xff\xff\xff\0\0\0",
            9,
            Reason::Short,
        ),
    ];
    for (kind, body, place, reason) in table {
        assert_eq!(rt;
            refusal(rt.alloc(), kind, body),
            Some(NotRead::Refused(Refusal { place, reason })),
            "{body:?}"
        );
    }
}

#[test]
fn refuses_a_create_or_an_acl_at_its_first_bad_field(rt: HostRuntime) {
    let table: [(Kind, &[u8], u32, Reason); 17] = [
        (Kind::Acl, b"\0\0\0", 0, Reason::Short),
        (Kind::Acl, b"\0\0\0\x1f\0\0\0", 4, Reason::Short),
        (Kind::Acl, b"\0\0\0\x1f\0\0\0\x02w", 8, Reason::Short),
        (
            Kind::Acl,
            b"\0\0\0\x1f\xff\xff\xff\xff",
            4,
            Reason::BadLength,
        ),
        (
            Kind::Acl,
            b"\0\0\0\x1f\xff\xff\xff\xfe",
            4,
            Reason::BadLength,
        ),
        (Kind::Acl, b"\0\0\0\x1f\0\0\0\x02w\xff", 8, Reason::BadUtf8),
        (Kind::Acl, b"\0\0\0\x1f\0\0\0\x01w\0\0\0", 9, Reason::Short),
        (
            Kind::Acl,
            b"\0\0\0\x1f\0\0\0\x01w\0\0\0\x01",
            13,
            Reason::Short,
        ),
        (
            Kind::Acl,
            b"\0\0\0\x1f\0\0\0\x01w\xff\xff\xff\xff",
            9,
            Reason::BadLength,
        ),
        (
            Kind::Acl,
            b"\0\0\0\x1f\0\0\0\x01w\0\0\0\x01\x80",
            13,
            Reason::BadUtf8,
        ),
        (Kind::Create, b"\0\0\0\x01/\0\0\0", 5, Reason::Short),
        (Kind::Create, b"\0\0\0\x01/\0\0\0\x02a", 9, Reason::Short),
        (
            Kind::Create,
            b"\0\0\0\x01/\xff\xff\xff\xfe",
            5,
            Reason::BadLength,
        ),
        (
            Kind::Create,
            b"\0\0\0\x01/\xff\xff\xff\xff\0\0\0",
            9,
            Reason::Short,
        ),
        (
            Kind::Create,
            b"\0\0\0\x01/\xff\xff\xff\xff\x80\0\0\0",
            9,
            Reason::BadLength,
        ),
        (
            Kind::Create,
            b"\0\0\0\x01/\xff\xff\xff\xff\0\0\0\x01\0\0\0",
            13,
            Reason::Short,
        ),
        (
            Kind::Create,
            b"\0\0\0\x01/\xff\xff\xff\xff\0\0\0\0\0\0\0",
            13,
            Reason::Short,
        ),
    ];
    for (kind, body, place, reason) in table {
        assert_eq!(rt;
            refusal(rt.alloc(), kind, body),
            Some(NotRead::Refused(Refusal { place, reason })),
            "{body:?}"
        );
    }
}

#[test]
fn refuses_set_watches_at_its_first_bad_list(rt: HostRuntime) {
    let table: [(&[u8], u32, Reason); 10] = [
        (b"\0\0\0\0\0\0\0", 0, Reason::Short),
        (b"\0\0\0\0\0\0\0\x12\0\0\0", 8, Reason::Short),
        (b"\0\0\0\0\0\0\0\x12\xff\xff\xff\xfe", 8, Reason::BadLength),
        (b"\0\0\0\0\0\0\0\x12\0\0\0\x01\0\0\0", 12, Reason::Short),
        (
            b"\0\0\0\0\0\0\0\x12\0\0\0\x01\0\0\0\x02/",
            16,
            Reason::Short,
        ),
        (
            b"\0\0\0\0\0\0\0\x12\0\0\0\x01\xff\xff\xff\xff",
            12,
            Reason::BadLength,
        ),
        (
            b"\0\0\0\0\0\0\0\x12\0\0\0\x02\0\0\0\x01/\0\0\0\x01\xff",
            21,
            Reason::BadUtf8,
        ),
        (
            b"\0\0\0\0\0\0\0\x12\0\0\0\0\x80\0\0\0",
            12,
            Reason::BadLength,
        ),
        (
            b"\0\0\0\0\0\0\0\x12\0\0\0\0\0\0\0\x01\0\0\0\x01\xc3",
            20,
            Reason::BadUtf8,
        ),
        (
            b"\0\0\0\0\0\0\0\x12\0\0\0\0\xff\xff\xff\xff\0\0\0",
            16,
            Reason::Short,
        ),
    ];
    for (body, place, reason) in table {
        assert_eq!(rt;
            refusal(rt.alloc(), Kind::SetWatches, body),
            Some(NotRead::Refused(Refusal { place, reason })),
            "{body:?}"
        );
    }
}
