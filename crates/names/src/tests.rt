use crate::Names;
use std::test::*;

#[test]
#[tactic(auto, using(crate::proofs::Places::place_nil))]
fn names_come_in_the_order_of_the_list(rt: HostRuntime) {
    let mut names = Names::<6, 2>::new();
    names.add(7);
    let mut list = [9, 7, 9, 5, 65535];
    names.number(&mut list);
    assert_eq!(rt; list, [1, 0, 1, 2, 3]);
    assert_eq!(rt; names.as_slice(), [7, 9, 5, 65535].as_slice());
}
