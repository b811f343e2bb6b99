//! `Loop` on sockets, standard input and output, and files for appending.

ghost use Rattle.std.specs.Prelude.{◌≡◌, ◌+◌, ◌≤◌, [], Some, true, IfOk, IfSome};
ghost use Rattle.fwd_outside.specs.Loop.{LoopGiven};

use crate::answer::answer_of;
use crate::loop_calls::LoopCalls;
use crate::shared::Shared;
use fwd_live_poll::Machine;
use fwd_live_sockets::{Handed, Patience};
use fwd_outside::{
    Begun, ConnId, Dialed, Ends, Happening, InputId, LinkId, Loop, Memory, OutputId, Pushed,
    Replied,
};
use std::alloc::Global;
use std::io;

/// The event loop of a live run, which never returns `End`. It breaks the link of an output's peer that is
/// silent for too long, or that sends more than 65,536 bytes before it has taken its payload.
#[derive(Drop)]
pub struct LiveLoop<'a> {
    machine: Machine<'a>,
    shared: &'a Shared,
    faults: u64,
    happenings: u64,
    greatest: u64,
    calls: LoopCalls,
}

impl<'a> LiveLoop<'a> {
    /// Returns the loop with an empty log, and how long peers of outputs may be silent. The caller picks what
    /// it is taken to bring.
    pub fn new(rt: HostRuntime, shared: &'a Shared, patience: Patience) -> io::Result<LiveLoop<'a>>
        ghost brought: { LoopGiven }
        ensures { IfOk result (λ l. (l.calls.given ≡ brought) × (l.calls.entries ≡ [])) }
    {
        let machine = Machine::new(rt, &shared.journal, patience)?;
        Ok(LiveLoop {
            machine,
            shared,
            faults: 0,
            happenings: 0,
            greatest: 0,
            calls: LoopCalls::new(),
        })
    }

    /// Returns the port of an input's listener, once the loop is started.
    pub fn port(&self, input: InputId) -> Option<u16> {
        self.machine.port(input)
    }

    /// Holds back all inputs while the disk fails, and tries once a second to fill the reserve.
    fn hold_back(&mut self) -> Result<(), Memory>
        ensures faults { self.new.faults ≡ self.old.faults }
        ensures happenings { self.new.happenings ≡ self.old.happenings }
        ensures greatest { self.new.greatest ≡ self.old.greatest }
        ensures calls { self.new.calls ≡ self.old.calls }
    {
        if self.shared.disk_failed.get() && self.machine.take_probe() {
            self.shared.probe();
        }
        self.machine.hold(self.shared.disk_failed.get())
    }

    /// Opens a link and returns its number; `None` if the system refuses.
    fn connect(&mut self, output: OutputId, tag: &[u8]) -> Result<Option<u64>, Memory>
        ensures newer { IfOk result (λ answer. IfSome answer (λ number. self.old.greatest + 1 ≤ number)) }
        ensures faults { self.new.faults ≡ self.old.faults }
        ensures happenings { self.new.happenings ≡ self.old.happenings }
        ensures greatest { self.new.greatest ≡ self.old.greatest }
        ensures calls { self.new.calls ≡ self.old.calls }
    {
        let Some(number) = self.greatest.checked_add(1) else {
            return Ok(None);
        };
        match answer_of(self.machine.dial(LinkId(number), output, tag))? {
            Some(()) => Ok(Some(number)),
            None => Ok(None),
        }
    }
}

impl<'a> Loop for LiveLoop<'a> {
    ghost faults = { λ l. l.faults };

    ghost counts = { λ l. record { happenings = l.happenings; greatest = l.greatest; endless = true } };

    ghost call_log = { λ l. Some (l.calls.given, l.calls.entries) };

    fn start(&mut self, ends: &Ends) -> Begun {
        self.shared.is_started.set(true);
        let Ok(answer) = answer_of(self.machine.start(ends)) else {
            return Begun::Memory;
        };
        self.calls = self.calls.then(&(ends, answer));
        match answer {
            Some(()) => Begun::Ready,
            None => {
                self.faults = self.faults.saturating_add(1);
                Begun::Failed
            }
        }
    }

    fn wait(&mut self, alloc: Global, until: u64, paused: u64) -> Result<Happening, Memory> {
        let read_within = self.shared.read_within.replace(u64::MAX);
        self.machine
            .note_files(read_within, self.shared.held_files.get());
        self.hold_back()?;
        let happening = self.machine.wait(alloc, until, paused)?;
        self.calls = self.calls.then(&(until, paused, &happening));
        let misses = self.machine.take_misses();
        self.faults = self.faults.saturating_add(misses);
        self.happenings = self.happenings.saturating_add(1);
        match happening {
            Happening::Failed => {
                self.faults = self.faults.saturating_add(1);
                Ok(Happening::Failed)
            }
            brought => Ok(brought),
        }
    }

    fn dial(&mut self, output: OutputId, tag: &[u8]) -> Dialed {
        let Ok(answer) = self.connect(output, tag) else {
            return Dialed::Memory;
        };
        self.calls = self.calls.then(&(output, tag, answer));
        match answer {
            Some(number) => {
                self.greatest = number;
                Dialed::Link(LinkId(number))
            }
            None => {
                self.faults = self.faults.saturating_add(1);
                Dialed::Refused
            }
        }
    }

    fn push(&mut self, link: LinkId, bytes: &[u8]) -> Pushed {
        let handed = self.machine.push(link, bytes);
        self.calls = self.calls.then(&(link, bytes, handed));
        match handed {
            Handed::Took(taken) => {
                if taken == 0 && !bytes.is_empty() {
                    self.faults = self.faults.saturating_add(1);
                }
                Pushed::Took(taken)
            }
            Handed::Full => Pushed::Again,
            Handed::Broken => {
                self.faults = self.faults.saturating_add(1);
                Pushed::Broken
            }
        }
    }

    fn close(&mut self, link: LinkId) -> Result<(), Memory> {
        self.machine.close(link);
        self.calls = self.calls.then(&link);
        Ok(())
    }

    fn reply(&mut self, conn: ConnId, bytes: &[u8]) -> Replied {
        let Ok(answer) = answer_of(self.machine.reply(conn, bytes)) else {
            return Replied::Memory;
        };
        self.calls = self.calls.then(&(conn, bytes, answer));
        match answer {
            Some(()) => Replied::Taken,
            None => {
                self.faults = self.faults.saturating_add(1);
                Replied::Broken
            }
        }
    }

    fn drop_conn(&mut self, conn: ConnId) -> Result<(), Memory> {
        self.machine.drop_conn(conn);
        self.calls = self.calls.then(&conn);
        Ok(())
    }

    /// Returns 0 if the system has no random bytes.
    fn word(&mut self) -> Result<u64, Memory> {
        let word = match self.machine.word() {
            Ok(word) => word,
            Err(_) => {
                self.faults = self.faults.saturating_add(1);
                0
            }
        };
        self.calls = self.calls.then(&word);
        Ok(word)
    }
}
