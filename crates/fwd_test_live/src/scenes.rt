//! Scenes of the loop with its peers.

use crate::stage::{FOLDER, PEER, Stage, new_stage, quiet};
use crate::steps::{Event, Step, take};
use fwd_live::{Patience, USUAL_PATIENCE};
use fwd_outside::{Pushed, Replied};
use std::test::Fail;

const HASTE: Patience = Patience {
    dial: 60,
    silence: 60,
};

/// A scene: how long its loop waits for a silent peer, and its steps.
#[derive(Clone, Copy)]
struct Scene {
    name: &'static str,
    patience: Patience,
    steps: &'static [Step],
}

const SCENES: &[Scene] = &[
    Scene {
        name: "a peer comes and goes",
        patience: USUAL_PATIENCE,
        steps: &[
            Step::Connect,
            Step::Send(b"hello\n"),
            Step::Quiet,
            Step::Brings(Event::Joined(1)),
            Step::Quiet,
            Step::Brings(Event::Piece(b"hello\n")),
            Step::Reply(1, b"ok", Replied::Taken),
            Step::Receive(b"ok"),
            Step::Close,
            Step::Brings(Event::Gone(1)),
            Step::Reply(1, b"ok", Replied::Broken),
        ],
    },
    Scene {
        name: "a connection that is dropped ends for its peer",
        patience: USUAL_PATIENCE,
        steps: &[
            Step::Connect,
            Step::Brings(Event::Joined(1)),
            Step::DropConn(1),
            Step::Reply(1, b"late", Replied::Broken),
            Step::ReceiveEnd,
        ],
    },
    // The loop buffers at most 65,536 bytes; the socket has the others.
    Scene {
        name: "a peer that sends no more gets its replies",
        patience: USUAL_PATIENCE,
        steps: &[
            Step::Connect,
            Step::Brings(Event::Joined(1)),
            Step::ReplyMuch,
            Step::EndSending,
            Step::Brings(Event::Gone(1)),
            Step::ReceiveTaken(65_536),
            Step::Quiet,
            Step::ReceiveTaken(0),
            Step::ReceiveEnd,
        ],
    },
    Scene {
        name: "an idle loop sleeps",
        patience: USUAL_PATIENCE,
        steps: &[Step::Sleep, Step::Words],
    },
    Scene {
        name: "the time comes before other events",
        patience: USUAL_PATIENCE,
        steps: &[
            Step::Connect,
            Step::TimeFirst,
            Step::Brings(Event::Joined(1)),
        ],
    },
    Scene {
        name: "peers are read though each wait is late",
        patience: USUAL_PATIENCE,
        steps: &[Step::Connect, Step::JoinedLate(1)],
    },
    Scene {
        name: "a link is opened and breaks",
        patience: USUAL_PATIENCE,
        steps: &[
            Step::Dial(PEER, 1),
            Step::Push(1, b"hello", Pushed::Again),
            Step::Brings(Event::Room(1)),
            Step::Push(1, b"hello", Pushed::Took(5)),
            Step::Accept,
            Step::Receive(b"hello"),
            Step::Send(b"ack"),
            Step::Brings(Event::Back(b"ack")),
            Step::Close,
            Step::Brings(Event::Broken(1)),
            Step::Push(1, b"x", Pushed::Broken),
            Step::CloseLink(1),
        ],
    },
    Scene {
        name: "a peer that answers early and reads late gets all",
        patience: USUAL_PATIENCE,
        steps: &[
            Step::Dial(PEER, 1),
            Step::Push(1, b"", Pushed::Again),
            Step::Brings(Event::Room(1)),
            Step::Accept,
            Step::PushMuch,
            Step::Send(b"early"),
            Step::Brings(Event::Back(b"early")),
            Step::ReceiveTaken(0),
            Step::Brings(Event::Room(1)),
            Step::Push(1, b"end", Pushed::Took(3)),
            Step::Receive(b"end"),
        ],
    },
    Scene {
        name: "a peer that is silent breaks its link",
        patience: HASTE,
        steps: &[
            Step::Dial(PEER, 1),
            Step::Push(1, b"x", Pushed::Again),
            Step::Brings(Event::Room(1)),
            Step::Push(1, b"x", Pushed::Took(1)),
            Step::Brings(Event::Broken(1)),
            Step::Push(1, b"x", Pushed::Broken),
        ],
    },
    Scene {
        name: "a file has the name of its tag",
        patience: USUAL_PATIENCE,
        steps: &[
            Step::Dial(FOLDER, 1),
            Step::Push(1, b"one", Pushed::Took(3)),
            Step::CloseLink(1),
            Step::Push(1, b"one", Pushed::Broken),
            Step::Dial(FOLDER, 2),
            Step::Push(2, b"two", Pushed::Took(3)),
            Step::CloseLink(2),
            Step::File("fwd_test_live.a_b", "onetwo"),
        ],
    },
];

/// Returns the place of the first step that goes otherwise.
fn first_other(stage: &mut Stage<'_>, rt: HostRuntime, steps: &[Step]) -> usize {
    for (place, step) in steps.iter().enumerate() {
        if !take(stage, rt, *step) {
            return place;
        }
    }
    steps.len()
}

fn play(rt: HostRuntime, scene: &Scene) -> Result<usize, Fail> {
    let shared = quiet(rt);
    let mut stage = new_stage(rt, &shared, scene.patience)?;
    Ok(first_other(&mut stage, rt, scene.steps))
}

#[test]
fn scenes_go_as_they_say(rt: HostRuntime) -> Result<(), Fail> {
    for scene in SCENES.iter() {
        let place = play(rt, scene)?;
        assert!(rt; place == scene.steps.len(), "{}: step {place}", scene.name);
    }
    Ok(())
}
