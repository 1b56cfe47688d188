// Faults of a schedule as those of a disk.
ghost use Rattle.std.specs.Prelude.{◌≡◌};
ghost use Rattle.ld_disk.specs.Plain.{fault_of};
ghost use Rattle.ld_host.specs.Faults.{picture_of, crash_of};

use ld_disk::{Fault, Picture as DiskPicture};
use ld_schedule::Picture;

fn picture(named: Picture) -> DiskPicture
    ensures { result ≡ picture_of named }
{
    match named {
        Picture::Old => DiskPicture::Old,
        Picture::New => DiskPicture::New,
        Picture::Byte(value) => DiskPicture::Byte(value),
    }
}

/// The writing call of this count from now on fails, or the disk crashes in it with a picture.
pub(crate) fn fault(left: u64, crash: Option<Picture>) -> Fault
    ensures { result ≡ fault_of left (crash_of crash) }
{
    match crash {
        None => Fault::FailAt(left),
        Some(named) => Fault::CrashAt(left, picture(named)),
    }
}
