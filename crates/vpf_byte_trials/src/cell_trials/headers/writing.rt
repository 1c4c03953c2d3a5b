//! Headers as they are written.

use super::{file, written};
use std::process::Abort;
use std::test::Fail;
use vpf_head::Header;
use vpf_triplet::{Count, Kind, Order};

#[test]
fn appends_to_what_was_written(rt: HostRuntime) -> Result<(), Fail> {
    let (header, _start) = Header::read(
        rt.alloc(),
        b"\x22\0\0\0Table;-;id=I,    1,P,Row Id,-,-,:;",
    )?;
    let header = header.with_order(Order::Big)?;
    assert!(rt; header.text_len() <= 65_536);
    let mut out = b"before".to_vec(rt.alloc())?;
    header.write(&mut out)?;
    let expected: &[u8] = b"before\0\0\0\x22M;Table;-;id=I,1,P,Row Id,-,-,-,:;";
    assert!(rt; out.as_slice() == expected);
    Ok(())
}

#[test]
fn gives_columns_other_kinds(rt: HostRuntime) -> Result<(), Fail> {
    let kinds: [(Kind, &[u8]); 3] = [
        (Kind::S, b"L;T;-;a=T,*,N,-,-,-,-,:id=S,1,P,i,v,t,n,:;"),
        (Kind::I, b"L;T;-;a=T,*,N,-,-,-,-,:id=I,1,P,i,v,t,n,:;"),
        (Kind::K, b"L;T;-;a=T,*,N,-,-,-,-,:id=K,1,P,i,v,t,n,:;"),
    ];
    let bytes = file(
        &rt,
        rt.alloc(),
        b"L;T;-;a=T,*,N,-,-,-,-,:id=X,1,P,i,v,t,n,:;",
    )?;
    for (kind, canonical) in kinds {
        let (mut header, _start) = Header::read(rt.alloc(), &bytes)?;
        change(&rt, &mut header, kind);
        let out = written(&rt, rt.alloc(), &header)?;
        assert!(rt; out.len() >= 4);
        assert!(rt; &out[4..] == canonical);
    }
    Ok(())
}

/// Gives the second column a kind that names rows.
fn change(rt: &impl Abort, header: &mut Header<'_>, kind: Kind) {
    assert!(rt; header.len() > 1);
    assert!(rt; header.at(1).count == Count::Fixed(1));
    assert!(rt; matches!(kind, Kind::S | Kind::I | Kind::K));
    header.set_kind(1, kind);
}
