//! Names, worked by hand.
use crate::{Name, NotName};
use std::test::Fail;

#[test]
fn what_a_name_is(rt: HostRuntime) -> Result<(), Fail> {
    assert!(rt; Name::new(b"") == Err(NotName));
    assert!(rt; Name::new(b"a").is_ok());
    assert!(rt; Name::new(&[b'z'; 32]).is_ok());
    assert!(rt; Name::new(&[b'z'; 33]) == Err(NotName));
    assert!(rt; Name::new(b"Sq") == Err(NotName));
    assert!(rt; Name::new(b"s q") == Err(NotName));
    let name = Name::new(b"sq_1-b")?;
    assert_eq!(rt; name.text(), "sq_1-b");
    assert!(rt; name == name.copy());
    assert!(rt; name < Name::new(b"sq_2")?);
    Ok(())
}
