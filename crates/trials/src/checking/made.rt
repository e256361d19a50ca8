// Plans that are made of random lists are accepted, and those with one meeting moved as the search says.
use crate::checking::checks::{check_moved, told_of};
use crate::lent::{Lengths, Slices};
use crate::made_lists::some_bytes;
use crate::random::Random;
use crate::same::{holds, same};
use meetings::read;
use std::test::Fail;

#[test]
fn plans_of_random_lists(rt: HostRuntime) -> Result<(), Fail> {
    let heap = rt.alloc();
    let mut random = Random::new(5);
    let mut others = 0u32;
    for _ in 0..300 {
        let list = read(heap, &some_bytes(heap, &mut random)?)?;
        // there are no more than 24 meetings, and no more rounds
        let mut lent = Slices::new(heap, Lengths::just_enough(&list, list.meetings().len(), 24))?;
        let rounds = lent.plan(heap, &list)?.rounds;
        same(
            &rt,
            &told_of(&rt, heap, &list, rounds, &lent.rounds)?,
            &None,
        );
        let at = usize::from(random.below(24));
        let accepted = check_moved(&rt, heap, &list, rounds, &lent.rounds, at)?;
        others = others.saturating_add(u32::from(accepted > 1));
    }
    // else the moved ones would show little
    holds(&rt, others > 50, &others);
    Ok(())
}
