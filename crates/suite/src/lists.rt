//! Lists from an alphabet, as the second engine goes through them.
use second::lists::{count_up_to, list, lists, lists_up_to};
use std::test::Fail;

#[test]
fn lists_of_an_alphabet(rt: HostRuntime) -> Result<(), Fail> {
    assert_eq!(rt; count_up_to(&[7, 8], 2), 7);
    // the empty list and those of one item come before the pairs
    for (number, told) in (3..7).zip([[7, 7], [7, 8], [8, 7], [8, 8]]) {
        let pair = list(rt.alloc(), &[7, 8], number)?;
        assert_eq!(rt; pair.as_slice(), told.as_slice());
    }
    assert_eq!(rt; list(rt.alloc(), &[7, 8], 0)?.len(), 0);
    Ok(())
}

#[test]
fn all_lists_of_an_alphabet(rt: HostRuntime) -> Result<(), Fail> {
    let pairs = lists(rt.alloc(), &[7, 8], 2)?;
    assert_eq!(rt; pairs.len(), 4);
    for (pair, told) in pairs.iter().zip([[7, 7], [7, 8], [8, 7], [8, 8]]) {
        assert_eq!(rt; pair.as_slice(), told.as_slice());
    }
    assert_eq!(rt; lists_up_to(rt.alloc(), &[7, 8], 2)?.len(), 7);
    // each stands where its number says
    let many = lists_up_to(rt.alloc(), &[7, 8, 9], 4)?;
    assert_eq!(rt; many.len(), 121);
    for (number, told) in (0..121).zip(&many) {
        let one = list(rt.alloc(), &[7, 8, 9], number)?;
        assert_eq!(rt; one.as_slice(), told.as_slice());
    }
    Ok(())
}

#[test]
fn all_lists_of_a_small_alphabet(rt: HostRuntime) -> Result<(), Fail> {
    let long = lists(rt.alloc(), &[7], 100)?;
    assert_eq!(rt; long.len(), 1);
    assert!(rt; long.iter().all(|list| list.len() == 100 && list.iter().all(|item| *item == 7)));
    assert_eq!(rt; lists_up_to(rt.alloc(), &[7], 100)?.len(), 101);
    let none: [u8; 0] = [];
    assert_eq!(rt; lists(rt.alloc(), &none, 0)?.len(), 1);
    assert_eq!(rt; lists(rt.alloc(), &none, 1)?.len(), 0);
    assert_eq!(rt; lists_up_to(rt.alloc(), &none, 100)?.len(), 1);
    Ok(())
}

#[test]
fn more_lists_than_can_be_counted(rt: HostRuntime) {
    assert!(rt; lists(rt.alloc(), &[7, 8], 64).is_err());
}
