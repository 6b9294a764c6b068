//! What holds of each record of requests. Each law is a contract; its call does nothing.

ghost use Rattle.std.specs.Prelude.{ℕ};
ghost use Rattle.request_record.specs.Asking.{AsksOnce, after_message, after_tick};
ghost use Rattle.request_record.specs.Record.{RequestsState};
ghost use Rattle.wire.specs.declared.message.Message.{Message};

/// Where no server is asked the same thing twice, no answer and no tick changes that.
pub fn asks_stay_once()
    ensures answers { (from now : ℕ) (m : Message) (r : RequestsState)
        → AsksOnce r.entries → AsksOnce (after_message from m now r).entries }
    ensures ticks { (now : ℕ) (r : RequestsState)
        → AsksOnce r.entries → AsksOnce (after_tick now r).entries }
{}
