ghost use Rattle.std.specs.Prelude.{◌≢◌, ◌<◌, length};
ghost use Rattle.im_lex.specs.Runs.{ElementsEnd};

use im_tok::{ElementFault, element_at};

/// Where the characters and escapes behind a quote end.
#[derive(Clone, Copy)]
pub struct Elements {
    /// The place of the first byte behind them.
    pub end: usize,
    pub count: usize,
    /// Why no other stands there.
    pub fault: ElementFault,
}

/// Reads the characters and escapes of the literal that begins the text.
pub fn elements_end(text: &[u8], quote: u8) -> Elements
    requires some { 0 < length text.now }
    requires quote { quote ≢ 92 }
    ensures { ElementsEnd quote text.now result.end result.count result.fault }
{
    let mut end = 1;
    let mut count = 0;
    loop {
        match element_at(&text[end..], quote) {
            Ok(element) => {
                end += element.length;
                count += 1;
            }
            Err(fault) => return Elements { end, count, fault },
        }
    }
}
