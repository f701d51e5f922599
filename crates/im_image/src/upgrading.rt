ghost use Rattle.std.specs.Prelude.{◌≡◌, IfOk, IfErr};
ghost use Rattle.im_image.specs.Faults.{fault_of, IsFaultOf};
ghost use Rattle.im_image.specs.Upgrade.{upgraded as upgraded_value, IsUpgrade};

use crate::fault::ImageFault;
use crate::image::Image;
use crate::reading::read_image;
use crate::version::Version;
use crate::writing::write_image;
use std::alloc::Global;

impl Image {
    /// The same content and form, whose text is of version 2.
    pub fn upgraded(self) -> Image
        ensures { result ≡ upgraded_value self }
    {
        Image {
            version: Version::Two,
            ..self
        }
    }
}

/// The version 2 text of the image that the bytes are the text of, whose content and form stay.
pub fn upgrade(alloc: Global, bytes: &[u8]) -> Result<Vec<u8>, ImageFault>
    // The bytes are an image's text, and what is written is that of the same image in version 2.
    ensures upgraded { IfOk result (λ text. IsUpgrade bytes.now text.items) }
    // A refusal names the first thing that isn't as it must be.
    ensures refused { IfErr result (λ fault. IsFaultOf fault (fault_of bytes.now)) }
{
    let image = read_image(alloc, bytes)?;
    Ok(write_image(alloc, &image.upgraded())?)
}
