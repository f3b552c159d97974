//! The machine of `completion_core`, on scripts of actions with the replies that they have to give.
use completion_core::{Action, Actor, Graph, Illegal, Node, Nodes, Reply, play, step};
use std::alloc::{AllocError, Global};
use std::str::SplitWhitespace;
use std::test::Fail;

fn number(word: Option<&str>) -> Option<u64> {
    word?.parse().ok()
}

fn small(word: Option<&str>) -> Option<u32> {
    word?.parse().ok()
}

/// An arming, whose onward nodes are the last of the words.
fn arming(
    alloc: Global,
    actor: Actor,
    node: Node,
    pending: u32,
    words: SplitWhitespace<'_>,
) -> Option<Action> {
    let mut onward = Vec::new(alloc);
    for word in words {
        onward.push(small(Some(word))?).ok()?;
    }
    Some(Action::Arm {
        actor,
        node,
        pending,
        onward: Nodes::new(onward),
    })
}

/// An action: its word, then its numbers.
fn action(alloc: Global, text: &str) -> Option<Action> {
    let mut words = text.split_whitespace();
    let name = words.next()?;
    let actor = small(words.next())?;
    if name == "claim" {
        return Some(Action::Claim { actor });
    }
    if name == "settle" {
        return Some(Action::Settle { actor });
    }
    let second = small(words.next())?;
    match name {
        "arm" => {
            let pending = small(words.next())?;
            arming(alloc, actor, second, pending, words)
        }
        "add" => Some(Action::Add {
            actor,
            node: second,
            d: number(words.next())?,
        }),
        "give" => Some(Action::Give {
            from: actor,
            to: second,
            node: small(words.next())?,
            k: number(words.next())?,
        }),
        "arrive" => Some(Action::Arrive {
            actor,
            node: second,
        }),
        _ => Some(Action::Run {
            actor,
            node: second,
        }),
    }
}

fn reply(text: &str) -> Option<Reply> {
    let mut words = text.split_whitespace();
    match words.next()? {
        "node" => Some(Reply::Node(small(words.next())?)),
        "none" => Some(Reply::NoNode),
        "pending" => Some(Reply::Pending(number(words.next())?)),
        "last" => Some(Reply::Last),
        _ => Some(Reply::Done),
    }
}

fn actions(alloc: Global, script: &str) -> Option<Vec<Action>> {
    let mut actions = Vec::new(alloc);
    for text in script.split(';') {
        actions.push(action(alloc, text)?).ok()?;
    }
    Some(actions)
}

/// Whether the actions give these replies, one after the other, on a new graph of three nodes.
fn gives_replies(alloc: Global, actions: &[Action], replies: &str) -> Option<bool> {
    if replies.split(';').count() != actions.len() {
        return Some(false);
    }
    let mut graph = Graph::new(alloc, 3, 1).ok()?;
    for (action, want) in actions.iter().zip(replies.split(';')) {
        if step(&mut graph, action.clone().ok()?).ok() != reply(want) {
            return Some(false);
        }
    }
    Some(true)
}

/// Whether these are the nodes.
fn are_nodes(found: &[Node], nodes: &str) -> bool {
    let mut words = nodes.split_whitespace();
    for node in found {
        if small(words.next()) != Some(*node) {
            return false;
        }
    }
    words.next().is_none()
}

/// Whether the script is legal on a new graph of three nodes, gives these replies, and runs these nodes.
fn gives(alloc: Global, row: &[&str; 3]) -> Option<bool> {
    let [script, replies, runs] = row;
    let actions = actions(alloc, script)?;
    let (_graph, ran) = play(alloc, 3, 1, &actions).ok()?;
    Some(gives_replies(alloc, &actions, replies)? && are_nodes(&ran, runs))
}

/// Whether the action of the script at the index is refused so, on a new graph of two nodes and one end.
fn refuses(alloc: Global, script: &str, reason: Illegal, index: usize) -> Option<bool> {
    let actions = actions(alloc, script)?;
    match play(alloc, 2, 1, &actions) {
        Ok(_) => Some(false),
        Err(found) => Some(found == (index, reason)),
    }
}

#[test]
fn nodes_stand_in_ascending_order(rt: HostRuntime) -> Result<(), Fail> {
    let nodes = Nodes::new([2, 0, 2, 1].to_vec(rt.alloc())?);
    assert!(rt; nodes.into_vec().as_slice() == [0, 1, 2, 2].as_slice());
    Ok(())
}

/// Java 17's own `CountedCompleter` printed all but the last four rows for these trees, by
/// `java reference/completers/CompleterCalls.java`.
#[test]
fn scripts_give_their_replies_as_javas_calls_do(rt: HostRuntime) -> Result<(), Fail> {
    let rows = [
        // left.tryComplete() leaves top with pending 0; after right.tryComplete() top is done, and left, right, top
        // ran.
        [
            "claim 0; arm 0 1 1 0; claim 0; arm 0 2 0 1; claim 0; arm 0 3 0 1; arrive 0 2; run 0 2; arrive 0 1; \
            arrive 0 3; run 0 3; arrive 0 1; run 0 1; settle 0",
            "node 1; done; node 2; done; node 3; done; last; done; pending 0; last; done; last; done; done",
            "2 3 1",
        ],
        // leaf.propagateCompletion() leaves middle with pending 0; after middle.propagateCompletion() top is done.
        [
            "claim 0; arm 0 1 0 0; claim 0; arm 0 2 1 1; claim 0; arm 0 3 0 2; arrive 0 3; run 0 3; arrive 0 2; \
            arrive 0 2; run 0 2; arrive 0 1; run 0 1; settle 0",
            "node 1; done; node 2; done; node 3; done; last; done; pending 0; last; done; last; done; done",
            "3 2 1",
        ],
        // addToPendingCount(2) makes pending 0 to 2; three times firstComplete() leaves 1, then 0, then answers the
        // task.
        [
            "claim 0; arm 0 1 0 0; add 0 1 2; arrive 0 1; arrive 0 1; arrive 0 1",
            "node 1; done; done; pending 1; pending 0; last",
            "",
        ],
        // The root of leaf and of top is top: it runs last and settles.
        [
            "claim 0; arm 0 1 0 0; claim 0; arm 0 2 0 1; claim 0; arm 0 3 0 2; arrive 0 3; run 0 3; arrive 0 2; \
            run 0 2; arrive 0 1; run 0 1; settle 0",
            "node 1; done; node 2; done; node 3; done; last; done; last; done; last; done; done",
            "3 2 1",
        ],
        [
            "claim 0; arm 0 1 1; give 0 1 1 1; arrive 0 1; arrive 1 1; run 1 1",
            "node 1; done; done; pending 0; last; done",
            "1",
        ],
        [
            "claim 0; arm 0 1 0 0; claim 0; arm 0 2 1 1; arrive 0 2; arrive 0 2; run 0 2; arrive 0 1; run 0 1; \
            settle 0",
            "node 1; done; node 2; done; pending 0; last; done; last; done; done",
            "2 1",
        ],
        [
            "claim 0; claim 1; claim 2; claim 1",
            "node 1; node 2; node 3; none",
            "",
        ],
        [
            "give 0 7 0 1; settle 7; claim 0; arm 0 1 0; add 0 1 4611686018427387903; give 0 1 1 4611686018427387903; \
            arrive 1 1; arrive 0 1",
            "done; done; node 1; done; done; done; pending 4611686018427387902; pending 4611686018427387901",
            "",
        ],
    ];
    for row in &rows {
        assert!(rt; gives(rt.alloc(), row) == Some(true), "{}", row[0]);
    }
    Ok(())
}

#[test]
fn the_first_reason_that_applies_is_given(rt: HostRuntime) -> Result<(), Fail> {
    // Neither END nor a node that wasn't drawn can be armed, added to, arrived at or run; END's arrivals can be given.
    // What isn't held comes before an onward node that isn't smaller; a node stands in the list once for each arrival
    // there. Made arrivals count too.
    let scripts =
        "arm 0 0 0|claim 0; arm 0 2 0|add 0 0 1|arrive 0 0|run 0 0|give 0 1 0 1; give 0 1 1 0|claim 0; arm 1 1 0 9|\
        claim 0; arm 0 1 0; arm 0 1 0 9|claim 0; arm 0 1 0 0 0|claim 0; arm 0 1 0 1 0|claim 0; arm 0 1 0; arrive 1 1|\
        claim 0; arm 0 1 0; add 1 1 18446744073709551615|claim 0; arm 0 1 0; give 0 0 1 2|settle 0; settle 0|\
        claim 0; arm 0 1 1; give 0 1 1 1; arrive 0 1; arrive 1 1; run 1 1; arrive 0 1|\
        claim 0; arm 0 1 0 0; claim 0; arm 0 2 1 1; arrive 0 2; arrive 0 2; run 0 2; arrive 0 1; run 0 1; \
        settle 0; settle 0|\
        claim 0; arm 0 1 0 0; claim 0; arm 0 2 1 1; arrive 0 2; run 0 2|claim 0; arm 0 1 0; run 0 1|\
        claim 0; arm 0 1 0; arrive 0 1; run 1 1|claim 0; arm 0 1 0; arrive 0 1; run 0 1; run 0 1|\
        claim 0; claim 0; arm 0 2 0; arm 0 1 0 2|claim 0; arm 0 1 0; add 0 1 4611686018427387904|\
        claim 0; arm 0 1 0; add 0 1 4611686018427387903; arrive 0 1; add 0 1 1";
    let reasons = [
        (Illegal::NoSuchNode, 6),
        (Illegal::NotClaimedHere, 1),
        (Illegal::AlreadyArmed, 1),
        (Illegal::NotHeld, 8),
        (Illegal::NotFinisher, 4),
        (Illegal::OnwardNotEarlier, 1),
        (Illegal::TooMany, 2),
    ];
    let mut rest = scripts.split('|');
    for (reason, scripts) in reasons {
        for _ in 0..scripts {
            let script = rest.next().expect(&rt, "a script for each reason");
            let index = script.split(';').count() - 1;
            assert!(rt;
                refuses(rt.alloc(), script, reason, index) == Some(true),
                "{script}"
            );
        }
    }
    assert!(rt; rest.next().is_none());
    Ok(())
}

/// Takes an action, and once more if an allocation failed: the graph is as it was then.
fn persists(graph: &mut Graph, action: &Action) -> Result<Option<Reply>, AllocError> {
    match step(graph, action.clone()?) {
        Err(Illegal::NoMemory) => Ok(step(graph, action.clone()?).ok()),
        answer => Ok(answer.ok()),
    }
}

#[test]
fn an_action_refused_for_memory_can_be_taken_again(rt: HostRuntime) -> Result<(), Fail> {
    let script =
        "claim 0; arm 0 1 1 0; claim 1; give 0 1 1 1; arm 1 2 0 1; give 1 2 2 1; arrive 2 2; run 2 2; arrive 2 1; \
        arrive 0 1; run 0 1; settle 0";
    let replies = "node 1; done; node 2; done; done; done; last; done; pending 0; last; done; done";
    let actions = actions(rt.alloc(), script).expect(&rt, "a script of actions");
    let mut graph = Graph::new(rt.alloc(), 2, 1)?;
    for (action, want) in actions.iter().zip(replies.split(';')) {
        assert!(rt; persists(&mut graph, action)? == reply(want), "{action:?}");
    }
    Ok(())
}
