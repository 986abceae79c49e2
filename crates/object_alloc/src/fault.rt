//! Where an image file breaks a rule.

use faults::NoMemory;
use file_fields::FileFault;

/// What a field of an image file breaks. A file that ends inside a field is `Short`.
#[derive(Clone, Copy, Debug, PartialEq, Eq)]
pub enum ImageKind {
    Short,
    Magic,
    Version,
    Geometry,
    Object,
    Overlap,
    Rest,
}

/// The first field that breaks a rule, by the place of its first byte. `Short` and `Rest` are at
/// the end: that of the file, and that of the image.
pub type ImageFault = FileFault<ImageKind>;

/// Why no image was read.
#[derive(Clone, Copy, PartialEq, Eq)]
pub enum ImageNo {
    Fault(ImageFault),
    NoMemory,
}

impl From<ImageFault> for ImageNo {
    ghost use Rattle.std.specs.Prelude.{◌≡◌};
    ghost use Rattle.object_alloc.specs.declared.fault.ImageNo.TheVariants.{Fault};

    ghost from_gives = { λ fault e. e ≡ Fault fault };

    fn from(fault: ImageFault) -> ImageNo {
        ImageNo::Fault(fault)
    }
}

impl From<NoMemory> for ImageNo {
    ghost use Rattle.std.specs.Prelude.{◌≡◌};
    ghost use Rattle.object_alloc.specs.declared.fault.ImageNo.TheVariants.{NoMemory as Want};

    ghost from_gives = { λ _ e. e ≡ Want };

    fn from(_no: NoMemory) -> ImageNo {
        ImageNo::NoMemory
    }
}
