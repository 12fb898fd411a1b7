//! A tree of sealed names, whose sequential nodes a counter enclave numbers.

ghost use Rattle.std.specs.Prelude.{IfOk};
ghost use Rattle.zk_messages.specs.Short.{HasShortParts};

use counter_enclave::CounterEnclave;
use jute_core::Text;
use path_seal::{NameKeys, seal_path};
use std::alloc::Global;
use std::test::Fail;
use tree_state::{Message, Outputs, Tree};
use zk_messages::{Outcome, Request};
use zk_path::read_path;
use zk_records::{Acl, Acls, ConnectRequest, CreateRequest};

// The sealed stem of the ten digits alone, under the root.
const UNDER_THE_ROOT: &str = "/1f0a1e6581f42efd79fffb9488aa96d787e46fb63d1ed83bc929778a";

// The sealed stem `/n-`, and its name numbered 0.
const STEM: &str = "/9271e571fe533e548a6a8370c4452a3294a2e490eb6e22a276b5339abebb";

const NAME: &str =
    "/b2e1c4e898d858a7e80afd835570700d80c9f8d83edeeeaceac3b891451705c92482dba5869e53bc";

type Sealed = Tree<CounterEnclave>;

fn keys() -> NameKeys {
    NameKeys::new(
        [0, 1, 2, 3, 4, 5, 6, 7, 8, 9, 10, 11, 12, 13, 14, 15],
        [
            32, 33, 34, 35, 36, 37, 38, 39, 40, 41, 42, 43, 44, 45, 46, 47, 48, 49, 50, 51, 52, 53,
            54, 55, 56, 57, 58, 59, 60, 61, 62, 63,
        ],
    )
}

// A tree with session 1 on connection 1.
fn opened(alloc: Global) -> Result<Sealed, Fail> {
    let mut tree = Tree::new(alloc, CounterEnclave::new(keys()))?;
    if tree.held.last == i64::MAX {
        return Err("no zxid is left".into());
    }
    let asked = ConnectRequest {
        protocol: 0,
        seen: 0,
        timeout: 4_000,
        session: 0,
        password: None,
        read_only: None,
    };
    tree.connect(alloc, 0, 1, &asked, 1, [7; 16])?;
    Ok(tree)
}

// create of a sequential node that stays.
#[tactic(auto, unfolding(zk_messages::specs::Short::HasShortParts))]
fn sequential(alloc: Global, stem: &str) -> Result<Request, Fail>
    ensures short { IfOk result HasShortParts }
{
    if stem.len() > 1000 {
        return Err("a long stem".into());
    }
    let acl = Acl {
        perms: 31,
        scheme: Text::copy_of(alloc, "world")?,
        id: Text::copy_of(alloc, "anyone")?,
    };
    Ok(Request::Create(CreateRequest {
        path: Text::copy_of(alloc, stem)?,
        content: None,
        acls: Some(Acls::of(vec![in alloc; acl]?)),
        flags: 2,
    }))
}

fn created(alloc: Global, tree: &mut Sealed, stem: &str) -> Result<Outputs, Fail> {
    if tree.held.last == i64::MAX {
        return Err("no zxid is left".into());
    }
    let request = sequential(alloc, stem)?;
    Ok(tree.apply(alloc, 0, 1, 5, &request)?)
}

// What the one reply tells.
fn outcome_in(outputs: &Outputs) -> Option<&Outcome> {
    let [output] = outputs.as_slice() else {
        return None;
    };
    match &output.message {
        Message::Reply(reply) => Some(&reply.outcome),
        _ => None,
    }
}

fn tells_path(outputs: &Outputs, expected: &str) -> bool {
    match outcome_in(outputs) {
        Some(Outcome::Path(path)) => path.as_str() == expected,
        _ => false,
    }
}

fn tells_error(outputs: &Outputs, expected: i32) -> bool {
    match outcome_in(outputs) {
        Some(Outcome::Error { code }) => *code == expected,
        _ => false,
    }
}

#[test]
fn a_tree_names_sequential_nodes_by_the_enclave(rt: HostRuntime) -> Result<(), Fail> {
    let alloc = rt.alloc();
    let mut tree = opened(alloc)?;
    let made = created(alloc, &mut tree, STEM)?;
    assert!(rt; tells_path(&made, NAME));
    assert_eq!(rt; tree.numberer().issued(), 1);
    let refused = created(alloc, &mut tree, "/n-")?;
    assert!(rt; tells_error(&refused, -8));
    assert_eq!(rt; (tree.numberer().issued(), tree.last()), (1, 2));
    let second = read_path(alloc, "/0000000001")?;
    assert!(rt; second.text().len() < 32);
    let expected = seal_path(alloc, &keys(), &second)?;
    let made = created(alloc, &mut tree, UNDER_THE_ROOT)?;
    assert!(rt; tells_path(&made, expected.as_str()));
    assert_eq!(rt; tree.numberer().issued(), 2);
    Ok(())
}
