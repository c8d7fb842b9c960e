ghost use Rattle.std.specs.Prelude.{◌≡◌, ℕ};
ghost use Rattle.nsq_base.specs.Options.{IsInRange};
ghost use Rattle.nsq_base.specs.declared.options.Options.{Options};
ghost use Rattle.nsqd_words.specs.Command.{HasOneAtMost, Words, refusal_of};
ghost use Rattle.nsqd_words.specs.Plain.{FlagIsFound, FlagValueIsRefused, HelpIsAsked, NothingIsFound, OneIsFound, SecondFlagIsRefused, TwiceIsRefused, VersionIsAsked, WordBehindFlagIsRefused};
ghost use Rattle.nsqd_words.specs.Requests.{Asks, AsksDrill, AsksHelp, AsksVersion, IsUnknown, SaysOptions};
ghost use Rattle.nsqd_words.specs.declared.request.Request.{Request};
ghost use Rattle.nsqd_words.specs.declared.request.Request.TheVariants as request;

/// Words that say options in their ranges aren't unknown. A law, with nothing to run.
pub fn options_are_known()
    ensures { (words : Words) (o : Options) → SaysOptions words o → IsInRange o → IsUnknown words → ⊥ }
{}

/// Words say one record of options at most. A law, with nothing to run.
pub fn options_are_one()
    ensures { (words : Words) (o p : Options) → SaysOptions words o → SaysOptions words p → o ≡ p }
{}

/// Words that ask for a drill, for help or for the version aren't unknown, and words ask for one drill at most. A law, with
/// nothing to run.
pub fn other_requests_are_known()
    ensures drill { (words : Words) (seed count : ℕ) → AsksDrill words seed count → IsUnknown words → ⊥ }
    ensures drills { (words : Words) (seed count seed' count' : ℕ) → AsksDrill words seed count
        → AsksDrill words seed' count' → (seed ≡ seed') × (count ≡ count') }
    ensures help { (words : Words) → AsksHelp words → IsUnknown words → ⊥ }
    ensures version { (words : Words) → AsksVersion words → IsUnknown words → ⊥ }
{}

/// Words that say options ask for no drill, no help and no version, and of those three they ask for one at most. A law,
/// with nothing to run.
pub fn requests_exclude_each_other()
    ensures options_drill { (words : Words) (o : Options) (seed count : ℕ) → SaysOptions words o
        → AsksDrill words seed count → ⊥ }
    ensures options_help { (words : Words) (o : Options) → SaysOptions words o → AsksHelp words → ⊥ }
    ensures options_version { (words : Words) (o : Options) → SaysOptions words o → AsksVersion words → ⊥ }
    ensures drill_help { (words : Words) (seed count : ℕ) → AsksDrill words seed count → AsksHelp words → ⊥ }
    ensures drill_version { (words : Words) (seed count : ℕ) → AsksDrill words seed count → AsksVersion words → ⊥ }
    ensures help_version { (words : Words) → AsksHelp words → AsksVersion words → ⊥ }
{}

/// clap has one kind of refusal at most for any words. A law, with nothing to run.
pub fn refusals_are_one()
    ensures { (words : Words) → HasOneAtMost (refusal_of words) }
{}

/// What plain words ask of clap: an option as one word says its value, and twice it is refused; the flag is found where it is
/// given, and it is refused twice and with a value; and `--help` and `--version` in front are asked for whatever follows. A
/// law, with nothing to run.
pub fn plain_words_say_their_values()
    ensures nothing { NothingIsFound }
    ensures one { OneIsFound }
    ensures flag { FlagIsFound }
    ensures twice { TwiceIsRefused }
    ensures second_flag { SecondFlagIsRefused }
    ensures flag_value { FlagValueIsRefused }
    ensures word_behind_flag { WordBehindFlagIsRefused }
    ensures help { HelpIsAsked }
    ensures version { VersionIsAsked }
{}

/// What words that are unknown ask for is Unknown. A law, with nothing to run.
pub fn unknown_words_are_unknown()
    ensures { (words : Words) (asked : Request) → Asks words asked → IsUnknown words → asked ≡ request.Unknown }
{}
