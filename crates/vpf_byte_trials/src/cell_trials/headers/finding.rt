//! What is found of headers.

use super::file;
use std::test::Fail;
use vpf_head::Header;

#[test]
fn finds_columns(rt: HostRuntime) -> Result<(), Fail> {
    let cases: [(&[u8], bool); 4] = [
        (b"L;T;-;id=I,1,P,i,-,-:Name=T,4,N,n,-,-:;", false),
        (b"L;T;-;id=I,1,P,i,-,-:Name=T,*,N,n,-,-:;", true),
        (b"L;T;-;id=K,1,P,i,-,-:Name=T,4,N,n,-,-:;", true),
        (b"L;T;-;id=X,1,P,i,-,-:Name=B,4,N,n,-,-:;", false),
    ];
    for (text, varies) in cases {
        let bytes = file(&rt, rt.alloc(), text)?;
        let (header, _start) = Header::read(rt.alloc(), &bytes)?;
        assert_eq!(rt; header.len(), 2);
        assert_eq!(rt; header.column(b"id"), Some(0));
        assert_eq!(rt; header.column(b"nAME"), Some(1));
        assert_eq!(rt; header.column(b"name2"), None);
        assert_eq!(rt; header.varies(), varies);
    }
    Ok(())
}
