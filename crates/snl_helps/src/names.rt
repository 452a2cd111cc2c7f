//! What helps at calls of functions that are not known, and at names that are not declared.

ghost use Rattle.std.specs.Prelude.{◌≡◌};
ghost use Rattle.std.specs.Option.{option_map};
ghost use Rattle.snl_helps.specs.Names as spec;

/// Of a function of numbers or of time.
fn number_help(name: &[u8]) -> Option<&'static [u8]>
    ensures { option_map (λ help. help.now) result ≡ spec.number_help name.now }
{
    if name == b"fabs".as_slice() {
        Some(b"x < 0 ? -x : x, or a function of the program")
    } else if name == b"abs".as_slice() {
        Some(b"x < 0 ? -x : x, or a function of the program")
    } else if name == b"sqrt".as_slice() {
        Some(b"a function of the program, of whole numbers")
    } else if name == b"pow".as_slice() {
        Some(b"a product, as x * x")
    } else if name == b"sleep".as_slice() {
        Some(b"a state of its own, and when (delay(SECONDS))")
    } else if name == b"usleep".as_slice() {
        Some(b"a state of its own, and when (delay(SECONDS))")
    } else if name == b"epicsThreadSleep".as_slice() {
        Some(b"a state of its own, and when (delay(SECONDS))")
    } else {
        None
    }
}

/// Of a function of channels, else of the others.
fn channel_help(name: &[u8]) -> Option<&'static [u8]>
    ensures { option_map (λ help. help.now) result ≡ spec.channel_help name.now }
{
    if name == b"pvStatus".as_slice() {
        Some(b"a channel of its own, NAME.STAT, with a monitor")
    } else if name == b"pvSeverity".as_slice() {
        Some(b"a channel of its own, NAME.SEVR, with a monitor: 0 to 3")
    } else if name == b"pvTimeStamp".as_slice() {
        Some(b"a channel of its own that brings the time, with a monitor")
    } else if name == b"pvAssign".as_slice() {
        Some(b"the name in the assign, with a macro that the call says")
    } else if name == b"pvMonitor".as_slice() {
        Some(b"a definition: monitor NAME;")
    } else if name == b"pvSync".as_slice() {
        Some(b"a definition: sync NAME to FLAG;")
    } else if name == b"macValueGet".as_slice() {
        Some(b"a macro stands in the names of channels alone: {NAME}")
    } else {
        number_help(name)
    }
}

/// Of a function that reads or measures texts, else of the others.
fn reading_help(name: &[u8]) -> Option<&'static [u8]>
    ensures { option_map (λ help. help.now) result ≡ spec.reading_help name.now }
{
    if name == b"sscanf".as_slice() {
        Some(b"no texts: a channel that brings the number itself")
    } else if name == b"atoi".as_slice() {
        Some(b"no texts: a channel that brings the number itself")
    } else if name == b"atof".as_slice() {
        Some(b"no texts: a channel that brings the number itself")
    } else if name == b"strlen".as_slice() {
        Some(b"no texts: a number with a legend, as 0 for an empty one")
    } else if name == b"strcat".as_slice() {
        Some(b"no texts: printf the numbers themselves")
    } else if name == b"snprintf".as_slice() {
        Some(b"no texts: printf the numbers themselves")
    } else if name == b"memset".as_slice() {
        Some(b"a while, or an assignment for each element")
    } else {
        channel_help(name)
    }
}

/// What helps at a call of a function that is not known (docs/MESSAGES.md, E16), by its name; none where nothing is known.
pub fn call_help_at(name: &[u8]) -> Option<&'static [u8]>
    ensures { option_map (λ help. help.now) result ≡ spec.call_help_at name.now }
{
    if name == b"strcpy".as_slice() {
        Some(b"no texts: a number with a legend, as x = 1; /* open */")
    } else if name == b"strncpy".as_slice() {
        Some(b"no texts: a number with a legend, as x = 1; /* open */")
    } else if name == b"strcmp".as_slice() {
        Some(b"no texts: compare the numbers that stand for them")
    } else if name == b"strncmp".as_slice() {
        Some(b"no texts: compare the numbers that stand for them")
    } else if name == b"sprintf".as_slice() {
        Some(b"no texts: printf the numbers themselves")
    } else if name == b"seqLog".as_slice() {
        Some(b"printf, which writes a line of its own")
    } else if name == b"errlogPrintf".as_slice() {
        Some(b"printf, which writes a line of its own")
    } else {
        reading_help(name)
    }
}

/// What helps at a name that is not declared (docs/MESSAGES.md, E13); none where nothing is known.
pub fn name_help_at(name: &[u8]) -> Option<&'static [u8]>
    ensures { option_map (λ help. help.now) result ≡ spec.name_help_at name.now }
{
    if name == b"true".as_slice() {
        Some(b"TRUE, or 1")
    } else if name == b"false".as_slice() {
        Some(b"FALSE, or 0")
    } else if name == b"NULL".as_slice() {
        Some(b"0")
    } else if name == b"pvSevrNONE".as_slice() {
        Some(b"0, as a channel NAME.SEVR has it")
    } else if name == b"pvSevrMINOR".as_slice() {
        Some(b"1, as a channel NAME.SEVR has it")
    } else if name == b"pvSevrMAJOR".as_slice() {
        Some(b"2, as a channel NAME.SEVR has it")
    } else if name == b"pvSevrINVALID".as_slice() {
        Some(b"3, as a channel NAME.SEVR has it")
    } else {
        None
    }
}
