ghost use Rattle.std.specs.Prelude.{◌≡◌, ℕ, ◌∷◌, [], Bool, IfSome, Option, Some, None, codes};
ghost use Rattle.std.specs.Prelude.{List, false, is_some, true, unwrap_or};
ghost use Rattle.clap.specs.Words.{Text};
ghost use Rattle.im_cmd_words.specs.declared.command.BuildOptions.{BuildOptions};
ghost use Rattle.im_cmd_words.specs.Named.{Evaluation, IsPlain, Options, Words, Writes};
ghost use Rattle.im_cmd_words.specs.Named.{building_words, builds, checks, default_building};
ghost use Rattle.im_cmd_words.specs.Named.{default_evaluation, default_options, dumps, evaluates};
ghost use Rattle.im_cmd_words.specs.Named.{evaluation_words, executes, generates, is_faultless};
ghost use Rattle.im_cmd_words.specs.Named.{is_option, memory_words, named, option_words, reports};
ghost use Rattle.im_cmd_words.specs.Named.{runs, saving_options, upgrades};
ghost use Rattle.im_cmd_words.specs.Numbers.{number_between, plain_number};

/// Words that name a command, one line for each.
pub fn words_taken_law()
    ensures build { named (codes "intermit" ∷ codes "build" ∷ codes "a" ∷ codes "b" ∷ [])
        ≡ Some (builds (codes "a") (codes "b") default_building) }
    ensures run { named (codes "intermit" ∷ codes "run" ∷ codes "a" ∷ codes "b" ∷ [])
        ≡ Some (runs (codes "a") (codes "b") default_building default_options) }
    ensures numbers { named (codes "intermit" ∷ codes "run" ∷ codes "--steps" ∷ codes "9"
        ∷ codes "--out-cap=0" ∷ codes "a" ∷ codes "--stack" ∷ codes "256" ∷ codes "b" ∷ [])
        ≡ Some (runs (codes "a") (codes "b") (record { stack = 256; out_cap = 0; max_gap = None })
        (record default_options { steps = 9 })) }
    ensures exec { named (codes "p" ∷ codes "exec" ∷ codes "--vars"
        ∷ codes "--steps=7" ∷ codes "b" ∷ codes "--input" ∷ codes "f" ∷ [])
        ≡ Some (executes (codes "b")
        (record default_options { input = Some (codes "f"); steps = 7; vars = true }) None) }
    ensures save { named (codes "intermit" ∷ codes "run" ∷ codes "--save" ∷ codes "m" ∷ codes "a"
        ∷ codes "b" ∷ codes "--vars" ∷ []) ≡ Some (runs (codes "a") (codes "b") default_building
        (record default_options { vars = true; save = Some (codes "m") })) }
    ensures resume { named (codes "intermit" ∷ codes "exec" ∷ codes "--resume=m" ∷ codes "a"
        ∷ codes "--trace" ∷ codes "t" ∷ codes "--save" ∷ codes "m" ∷ [])
        ≡ Some (executes (codes "a")
        (record default_options { trace = Some (codes "t"); save = Some (codes "m") })
        (Some (codes "m"))) }
    ensures dump { named (codes "intermit" ∷ codes "dump"
        ∷ codes "b" ∷ []) ≡ Some (dumps (codes "b")) }
    ensures upgrade { named (codes "intermit" ∷ codes "upgrade" ∷ codes "a" ∷ codes "b" ∷ [])
        ≡ Some (upgrades (codes "a") (codes "b")) }
    ensures report { named (codes "intermit" ∷ codes "report" ∷ codes "--out-cap" ∷ codes "9"
        ∷ codes "a" ∷ [])
        ≡ Some (reports (codes "a") (record default_building { out_cap = 9 })) }
    ensures eval { named (codes "intermit" ∷ codes "eval" ∷ codes "--fuel" ∷ codes "9" ∷ codes "a"
        ∷ codes "--vars" ∷ codes "--stack=256" ∷ codes "--input" ∷ codes "f" ∷ [])
        ≡ Some (evaluates (codes "a") (record default_building { stack = 256 })
        (record { input = Some (codes "f"); fuel = 9; vars = true })) }
    ensures gap { named (codes "intermit" ∷ codes "build" ∷ codes "--max-gap" ∷ codes "160"
        ∷ codes "a" ∷ codes "b" ∷ []) ≡ Some (builds (codes "a") (codes "b")
        (record default_building { max_gap = Some 160 })) }
    ensures made { named (codes "intermit" ∷ codes "gen" ∷ codes "300" ∷ [])
        ≡ Some (generates 300) }
    ensures check { named (codes "intermit" ∷ codes "check" ∷ codes "a" ∷ [])
        ≡ Some (checks (codes "a")) }
{}

/// Each command takes its files by their places, whatever their names are but options.
pub fn files_law()
    ensures build { (program source image : Text) → is_option source ≡ false
        → is_option image ≡ false → named (program ∷ codes "build" ∷ source ∷ image ∷ [])
        ≡ Some (builds source image default_building) }
    ensures run { (program source image : Text) → is_option source ≡ false
        → is_option image ≡ false → named (program ∷ codes "run" ∷ source ∷ image ∷ [])
        ≡ Some (runs source image default_building default_options) }
    ensures exec { (program image : Text) → is_option image ≡ false
        → named (program ∷ codes "exec" ∷ image ∷ [])
        ≡ Some (executes image default_options None) }
    ensures dump { (program image : Text) → is_option image ≡ false
        → named (program ∷ codes "dump" ∷ image ∷ []) ≡ Some (dumps image) }
    ensures upgrade { (program old new : Text) → is_option old ≡ false
        → is_option new ≡ false → named (program ∷ codes "upgrade" ∷ old ∷ new ∷ [])
        ≡ Some (upgrades old new) }
    ensures report { (program source : Text) → is_option source ≡ false
        → named (program ∷ codes "report" ∷ source ∷ [])
        ≡ Some (reports source default_building) }
    ensures eval { (program source : Text) → is_option source ≡ false
        → named (program ∷ codes "eval" ∷ source ∷ [])
        ≡ Some (evaluates source default_building default_evaluation) }
    ensures check { (program source : Text) → is_option source ≡ false
        → named (program ∷ codes "check" ∷ source ∷ []) ≡ Some (checks source) }
{}

/// A build's options, each given or not, after the files.
pub fn building_law()
    ensures build { (program source image : Text) (stack out_cap max_gap : Option Text)
        (building : BuildOptions) → is_option source ≡ false → is_option image ≡ false
        → Writes stack out_cap max_gap building
        → named (program ∷ codes "build" ∷ source ∷ image ∷ building_words stack out_cap max_gap)
        ≡ Some (builds source image building) }
    ensures run { (program source image : Text) (stack out_cap max_gap : Option Text)
        (building : BuildOptions) → is_option source ≡ false → is_option image ≡ false
        → Writes stack out_cap max_gap building
        → named (program ∷ codes "run" ∷ source ∷ image ∷ building_words stack out_cap max_gap)
        ≡ Some (runs source image building default_options) }
    ensures report { (program source : Text) (stack out_cap max_gap : Option Text)
        (building : BuildOptions) → is_option source ≡ false
        → Writes stack out_cap max_gap building
        → named (program ∷ codes "report" ∷ source ∷ building_words stack out_cap max_gap)
        ≡ Some (reports source building) }
    ensures eval { (program source : Text) (stack out_cap max_gap : Option Text)
        (building : BuildOptions) → is_option source ≡ false
        → Writes stack out_cap max_gap building
        → named (program ∷ codes "eval" ∷ source ∷ building_words stack out_cap max_gap)
        ≡ Some (evaluates source building default_evaluation) }
{}

/// A run's options, each given or not, after the files.
pub fn options_law()
    ensures exec { (program image : Text) (options : Options) (steps : Option Text)
        → is_option image ≡ false → Words options steps
        → named (program ∷ codes "exec" ∷ image ∷ option_words options steps)
        ≡ Some (executes image options None) }
    ensures run { (program source image : Text) (options : Options) (steps : Option Text)
        → is_option source ≡ false → is_option image ≡ false → Words options steps
        → named (program ∷ codes "run" ∷ source ∷ image ∷ option_words options steps)
        ≡ Some (runs source image default_building options) }
{}

/// The files of memories, each given or not, after the other files.
pub fn memories_law()
    ensures exec { (program image : Text) (save resume : Option Text) → is_option image ≡ false
        → IfSome save (λ file. is_option file ≡ false)
        → IfSome resume (λ file. is_option file ≡ false)
        → named (program ∷ codes "exec" ∷ image ∷ memory_words save resume)
        ≡ Some (executes image (saving_options save) resume) }
    ensures run { (program source image : Text) (save : Option Text) → is_option source ≡ false
        → is_option image ≡ false → IfSome save (λ file. is_option file ≡ false)
        → named (program ∷ codes "run" ∷ source ∷ image ∷ memory_words save None)
        ≡ Some (runs source image default_building (saving_options save)) }
{}

/// An evaluation's options, each given or not, after the file.
pub fn evaluation_law()
    ensures { (program source : Text) (options : Evaluation) (fuel : Option Text)
        → is_option source ≡ false → IfSome options.input (λ file. is_option file ≡ false)
        → plain_number (unwrap_or fuel (codes "1000000")) ≡ Some options.fuel
        → named (program ∷ codes "eval" ∷ source ∷ evaluation_words options fuel)
        ≡ Some (evaluates source default_building options) }
{}

/// `gen` takes each number from 1 to 300 that has no sign and no zero before it.
pub fn generation_law()
    ensures { (program text : Text) (number : ℕ) → number_between 1 300 text ≡ Some number
        → named (program ∷ codes "gen" ∷ text ∷ []) ≡ Some (generates number) }
{}

/// Words in which clap finds no fault name a command, but for a number with a sign or a zero first.
pub fn faultless_law()
    ensures { (words : List Text) → is_faultless words ≡ true → IsPlain (codes "steps") words
        → IsPlain (codes "fuel") words → IsPlain (codes "stack") words
        → IsPlain (codes "out-cap") words → IsPlain (codes "max-gap") words
        → IsPlain (codes "N") words
        → is_some (named words) ≡ true }
{}

/// Words that name no command: none at all, too few, too many, a request for help, an option that
/// there isn't, and numbers out of range, with a sign, or with a zero before them.
pub fn words_refused_law()
    ensures alone { named (codes "intermit" ∷ []) ≡ None }
    ensures few { named (codes "intermit" ∷ codes "run" ∷ codes "a" ∷ []) ≡ None }
    ensures many { named (codes "intermit" ∷ codes "run" ∷ codes "a" ∷ codes "b"
        ∷ codes "c" ∷ []) ≡ None }
    ensures help { named (codes "intermit" ∷ codes "--help" ∷ []) ≡ None }
    ensures option { named (codes "intermit" ∷ codes "run" ∷ codes "-x" ∷ codes "b" ∷ []) ≡ None }
    ensures range { named (codes "intermit" ∷ codes "exec" ∷ codes "b"
        ∷ codes "--steps" ∷ codes "4294967296" ∷ []) ≡ None }
    ensures stack { named (codes "intermit" ∷ codes "report" ∷ codes "a"
        ∷ codes "--stack" ∷ codes "255" ∷ []) ≡ None }
    ensures output { named (codes "intermit" ∷ codes "report" ∷ codes "a"
        ∷ codes "--out-cap" ∷ codes "1048577" ∷ []) ≡ None }
    ensures short { named (codes "intermit" ∷ codes "report" ∷ codes "a"
        ∷ codes "--max-gap" ∷ codes "159" ∷ []) ≡ None }
    ensures long { named (codes "intermit" ∷ codes "report" ∷ codes "a"
        ∷ codes "--max-gap" ∷ codes "1000001" ∷ []) ≡ None }
    ensures other { named (codes "intermit" ∷ codes "exec" ∷ codes "a"
        ∷ codes "--max-gap" ∷ codes "160" ∷ []) ≡ None }
    ensures fuel { named (codes "intermit" ∷ codes "eval" ∷ codes "a"
        ∷ codes "--fuel" ∷ codes "4294967296" ∷ []) ≡ None }
    ensures sign { named (codes "intermit" ∷ codes "exec" ∷ codes "b"
        ∷ codes "--steps" ∷ codes "+7" ∷ []) ≡ None }
    ensures zero { named (codes "intermit" ∷ codes "exec" ∷ codes "b"
        ∷ codes "--steps" ∷ codes "07" ∷ []) ≡ None }
    ensures none { named (codes "intermit" ∷ codes "gen" ∷ codes "0" ∷ []) ≡ None }
    ensures over { named (codes "intermit" ∷ codes "gen" ∷ codes "301" ∷ []) ≡ None }
    ensures plus { named (codes "intermit" ∷ codes "gen" ∷ codes "+1" ∷ []) ≡ None }
    ensures padded { named (codes "intermit" ∷ codes "gen" ∷ codes "01" ∷ []) ≡ None }
    ensures resume { named (codes "intermit" ∷ codes "run" ∷ codes "a" ∷ codes "b"
        ∷ codes "--resume" ∷ codes "m" ∷ []) ≡ None }
    ensures save { named (codes "intermit" ∷ codes "build" ∷ codes "a" ∷ codes "b"
        ∷ codes "--save" ∷ codes "m" ∷ []) ≡ None }
    ensures unnamed { named (codes "intermit" ∷ codes "exec" ∷ codes "a"
        ∷ codes "--save" ∷ []) ≡ None }
    ensures check { named (codes "intermit" ∷ codes "check" ∷ codes "a" ∷ codes "b" ∷ []) ≡ None }
{}
