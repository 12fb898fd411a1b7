//! Several changes as one.

use super::watching::{replies, tells};
use super::{Ask, Outputs, Part, asked_by, made_at, opened, opened_twice};
use crate::message::{Message, Output};
use std::test::Fail;
use zk_messages::{OpResult, Outcome, Reply};
use zk_records::Stat;

// The results of the reply at the index: the code of each error, 1 for a node that was made, 2 removed, 5 changed, 13 checked and
// 15 made with its Stat; 9 where there is none.
fn results(outputs: &Outputs, index: usize) -> [i32; 3] {
    let mut found = [9; 3];
    let Some(output) = outputs.get(index) else {
        return found;
    };
    if let Message::Reply(
        Reply {
            outcome: Outcome::Multi(results),
            ..
        },
    ) = &output.message
    {
        for (place, result) in found.iter_mut().zip(results.as_slice()) {
            *place = match result {
                OpResult::Created(_) => 1,
                OpResult::Created2 { .. } => 15,
                OpResult::Deleted => 2,
                OpResult::Changed(_) => 5,
                OpResult::Checked => 13,
                OpResult::Error { code } => *code,
            };
        }
    }
    found
}

#[test]
fn a_failed_multi_changes_nothing(rt: HostRuntime) -> Result<(), Fail> {
    let alloc = rt.alloc();
    let mut tree = opened(alloc, 0)?;
    asked_by(alloc, &mut tree, 0, 1, Ask::Create("/a", None, 0))?;
    asked_by(alloc, &mut tree, 0, 1, Ask::WatchNode("/b"))?;
    let before = tree.stat("/a");
    let failed = Ask::Multi(
        Part::Create("/b", 0),
        Part::Set("/a", 5),
        Part::Delete("/a", -1),
    );
    let told = asked_by(alloc, &mut tree, 0, 1, failed)?;
    assert_eq!(rt; results(&told, 0), [0, -103, -2]);
    assert!(rt; replies(&told, 0, 1, 2));
    assert_eq!(rt; (tree.stat("/a"), tree.stat("/b")), (before, None));
    let made = asked_by(alloc, &mut tree, 0, 1, Ask::Create("/b", None, 0))?;
    assert!(rt; tells(&made, 0, 1, 1, "/b") && replies(&made, 1, 1, 3));
    Ok(())
}

#[test]
fn later_parts_see_earlier_ones_under_one_zxid(rt: HostRuntime) -> Result<(), Fail> {
    let alloc = rt.alloc();
    let mut tree = opened(alloc, 0)?;
    let parts = Ask::Multi(
        Part::Create("/p", 0),
        Part::Create("/p/c-", 2),
        Part::Set("/p", 0),
    );
    let told = asked_by(alloc, &mut tree, 7, 1, parts)?;
    assert_eq!(rt; results(&told, 0), [1, 1, 5]);
    let parent = tree.stat("/p");
    assert!(rt; parent.is_some_and(|stat| stat.czxid == 2 && stat.mzxid == 2 && stat.pzxid == 2));
    assert!(rt; parent.is_some_and(|stat| stat.version == 1 && stat.children == 1));
    assert!(rt;
        tree.stat("/p/c-0000000000")
            .is_some_and(|stat| stat.czxid == 2)
    );
    assert_eq!(rt; tree.last(), 2);
    Ok(())
}

// The Stat of the first node that a multi made.
fn first_stat(outputs: &Outputs) -> Option<Stat> {
    let Some(
        Output {
            message: Message::Reply(
                Reply {
                    outcome: Outcome::Multi(results),
                    ..
                },
            ),
            ..
        },
    ) = outputs.get(0)
    else {
        return None;
    };
    match results.get(0) {
        Some(OpResult::Created2 { stat, .. }) => Some(*stat),
        _ => None,
    }
}

// The Stat is as the node was made, before it was changed.
#[test]
fn a_part_tells_the_stat_after_it(rt: HostRuntime) -> Result<(), Fail> {
    let alloc = rt.alloc();
    let mut tree = opened(alloc, 0)?;
    let parts = Ask::Multi(
        Part::Create2("/b", 0),
        Part::Check("/b", 0),
        Part::Set("/b", 0),
    );
    let told = asked_by(alloc, &mut tree, 0, 1, parts)?;
    assert_eq!(rt; results(&told, 0), [15, 13, 5]);
    assert_eq!(rt; first_stat(&told), Some(made_at(0, 0)));
    assert!(rt; replies(&told, 0, 1, 2));
    Ok(())
}

#[test]
fn a_node_that_is_replaced_is_told_as_removed_alone(rt: HostRuntime) -> Result<(), Fail> {
    let alloc = rt.alloc();
    let mut tree = opened_twice(alloc)?;
    asked_by(alloc, &mut tree, 0, 2, Ask::Create("/x", None, 0))?;
    asked_by(alloc, &mut tree, 0, 1, Ask::WatchContent("/x"))?;
    asked_by(alloc, &mut tree, 0, 1, Ask::WatchChildren("/x"))?;
    let replaced = Ask::Multi(Part::Delete("/x", -1), Part::Create("/x", 0), Part::No);
    let told = asked_by(alloc, &mut tree, 0, 2, replaced)?;
    assert!(rt; tells(&told, 0, 1, 2, "/x") && replies(&told, 1, 2, 4));
    assert_eq!(rt; results(&told, 1), [2, 1, 9]);
    Ok(())
}

#[test]
fn checks_alone_and_nothing_draw_a_zxid(rt: HostRuntime) -> Result<(), Fail> {
    let alloc = rt.alloc();
    let mut tree = opened(alloc, 0)?;
    let check = Ask::Multi(Part::Check("/", -1), Part::No, Part::No);
    let told = asked_by(alloc, &mut tree, 0, 1, check)?;
    assert_eq!(rt; (results(&told, 0), tree.last()), ([13, 9, 9], 2));
    let none = Ask::Multi(Part::No, Part::No, Part::No);
    let told = asked_by(alloc, &mut tree, 0, 1, none)?;
    assert!(rt; replies(&told, 0, 1, 3));
    Ok(())
}
