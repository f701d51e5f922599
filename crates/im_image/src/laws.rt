ghost use Rattle.im_image.specs.Laws.{EachText, NoFault, OneImage, UpgradeLaw};

/// Two images of one text are one image.
pub fn one_image_law()
    ensures { OneImage }
{}

/// The text of an image has no fault.
pub fn no_fault_law()
    ensures { NoFault }
{}

/// Bytes without a fault are the text of an image.
pub fn each_text_law()
    ensures { EachText }
{}

/// An image, upgraded, is one whose rules hold as before; upgraded again it stays as it is.
pub fn upgrade_law()
    ensures { UpgradeLaw }
{}
