ghost use Rattle.std.specs.Prelude.{◌≡◌, ℕ, List, ◌∷◌, ◌++◌, [], Contains, Option, Some};
ghost use Rattle.fwd_base.specs.declared.ids.ConnId.{ConnId};
ghost use Rattle.fwd_base.specs.declared.ids.InputId.{InputId};
ghost use Rattle.fwd_outside.specs.Program.{entry, Return, Execution};
ghost use Rattle.fwd_outside.specs.Loop.{Reply};
ghost use Rattle.fwd_outside.specs.declared.ends.Ends.{Ends};
ghost use Rattle.fwd_outside.specs.declared.happening.Happening.{Happening};
ghost use Rattle.fwd_outside.specs.declared.happening.Happening.TheVariants as happening;
ghost use Rattle.fwd_settings.specs.declared.settings_types.AllSettings.{AllSettings};
ghost use Rattle.fwd_model.specs.Fact.{History, MessageStream};
ghost use Rattle.fwd_model.specs.Trace.{Action, OnLoop, TraceEntry};
ghost use Rattle.fwd_model.specs.Streams.{stream_of};
ghost use Rattle.fwd_model.specs.StepActions.{step};
ghost use Rattle.fwd_model.specs.Run.{RunResult, life};
ghost use Rattle.fwd_theorem_trace.specs.Past.{past_after};
ghost use Rattle.fwd_theorem_delivery.specs.Replies.{replies_in, AnswersRead, ReadsMessages, IsDueReply};

/// If a step reads messages of a forward peer, it answers the first of the messages that end in the read:
/// each of these was taken, and the replies that they ask for are sent, in order, and no others. It stops
/// early, or drops the connection, only if a batch was refused, a reply failed, or the bytes after the
/// messages are invalid; and it drops no other connection. No step replies to another connection, or on
/// another event, however far it has come.
pub fn messages_get_their_replies()
    ensures answered { (s : AllSettings) (h new : History) (input : InputId) (conn : ConnId) (bytes : List ℕ) (entries : List TraceEntry)
        → stream_of s h input.0 conn.0 ≡ Some (MessageStream conn.0) → Execution (step s (happening.Piece input conn bytes) h) entries (Return new)
        → AnswersRead s h input.0 conn.0 bytes entries }
    ensures nothing_else { (s : AllSettings) (h : History) (brought : Happening) (conn : ℕ) (bytes : List ℕ) (entries : List TraceEntry) (left : Action History)
        → Execution (step s brought h) entries left → Contains (replies_in entries) (conn, bytes) → ReadsMessages s h brought conn }
{}

/// Each reply of a run is due, however far the run has come. The last read had a message that asks for
/// it, whose batch was taken since, and all messages before that one in the read were taken and answered.
/// So no reply precedes the acceptance that it acknowledges, and no message gets two replies.
pub fn replies_are_due()
    ensures { (s : AllSettings) (ends : Ends) (ticks : Option ℕ) (turns : ℕ) (before rest : List TraceEntry) (conn : ℕ) (bytes : List ℕ) (answer : Option (Unit {0})) (left : Action RunResult)
        → Execution (life s ends ticks turns) (before ++ entry (OnLoop (Reply conn bytes)) answer ∷ rest) left → IsDueReply s (past_after [] before) conn bytes }
{}
