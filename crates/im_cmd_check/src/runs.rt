ghost use Rattle.std.specs.Prelude.{◌≡◌, ◌≤◌, drop, length};
ghost use Rattle.std.specs.List.{prefix_len};
ghost use Rattle.im_cmd_check.specs.Runs.{behind, goes_on as goes_on_with, part, run};

/// What the bytes have in common with which a text begins.
#[derive(Clone, Copy)]
pub enum Run {
    /// Blanks and tabs.
    Gaps,
    Digits,
    /// No quotation mark.
    Quoted,
    /// No LF.
    Line,
}

fn goes_on(run: Run, byte: u8) -> bool
    ensures { result ≡ goes_on_with run byte }
{
    match run {
        Run::Gaps => byte == b' ' || byte == b'\t',
        Run::Digits => byte >= b'0' && byte <= b'9',
        Run::Quoted => byte != b'"',
        Run::Line => byte != b'\n',
    }
}

fn run_length(text: &[u8], run: Run) -> usize
    ensures length { result ≡ prefix_len (goes_on_with run) text.now }
    ensures bound { result ≤ length text.now }
{
    let mut end = 0;
    while end < text.len() && goes_on(run, text[end]) {
        end += 1;
    }
    end
}

/// The bytes with which a text begins and that have this in common.
pub fn front_run(text: &[u8], kind: Run) -> &[u8]
    ensures { result.now ≡ run kind text.now }
{
    let end = run_length(text, kind);
    &text[..end]
}

/// What stands behind them.
pub fn behind_run(text: &[u8], kind: Run) -> &[u8]
    ensures { result.now ≡ behind kind text.now }
{
    let end = run_length(text, kind);
    &text[end..]
}

/// The bytes from a place on.
pub fn rest_of(text: &[u8], start: u32) -> &[u8]
    ensures { result.now ≡ drop start text.now }
{
    &text[text.len().min(start as usize)..]
}

/// The bytes from the first place on, up to before the second.
pub fn part_of(text: &[u8], start: u32, end: u32) -> &[u8]
    ensures { result.now ≡ part text.now start end }
{
    let rest = rest_of(text, start);
    let count = rest.len().min(end.saturating_sub(start) as usize);
    &rest[..count]
}
