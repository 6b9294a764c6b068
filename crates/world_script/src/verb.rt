//! The first words of commands.

ghost use Rattle.std.specs.Prelude.{◌≡◌, ◌≢◌, IfNone, IfSome};
ghost use Rattle.world_script.specs.Script.{name_of};
ghost use Rattle.world_script.specs.declared.verb.Verb.{Verb};

// What a command does.
#[derive(Clone, Copy, PartialEq, Eq)]
pub(crate) enum Verb {
    Upload,
    Download,
    Check,
    Repair,
    Deliver,
    Drain,
    Random,
    Pass,
    Restart,
    Fail,
    Refuse,
    Turn,
    Forge,
}

// The verb of this name.
pub(crate) fn verb_named(word: &[u8]) -> Option<Verb>
    ensures value { IfSome result (λ verb. word.now ≡ name_of verb) }
    ensures none { IfNone result ((verb : Verb) → word.now ≢ name_of verb) }
{
    match word {
        b"upload" => Some(Verb::Upload),
        b"download" => Some(Verb::Download),
        b"check" => Some(Verb::Check),
        b"repair" => Some(Verb::Repair),
        b"deliver" => Some(Verb::Deliver),
        b"drain" => Some(Verb::Drain),
        b"random" => Some(Verb::Random),
        b"pass" => Some(Verb::Pass),
        b"restart" => Some(Verb::Restart),
        b"fail" => Some(Verb::Fail),
        b"refuse" => Some(Verb::Refuse),
        b"turn" => Some(Verb::Turn),
        b"forge" => Some(Verb::Forge),
        _ => None,
    }
}
