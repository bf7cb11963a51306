// The archive that a host written in C links with: the entry of `opening`, under the name that include/fibre.h declares.
#![tactic(auto)]

ghost use Rattle.frame.specs.Direction.{dir};
ghost use Rattle.frame.specs.Shape.{shape};
ghost use Rattle.opening.specs.Host.{HostOpens};

// Opens a frame as `opening::fibre_open_frame` does.
#[unsafe(no_mangle)]
pub extern "C" fn fibre_open_frame(
    src: &[u8],
    width: usize,
    height: usize,
    stride: usize,
    p: i64,
    q: i64,
    length: usize,
    dst: &mut [u8],
    scratch: &mut [u8],
) -> u64
    ensures { HostOpens src.now (shape width height stride) (dir p q) length dst.old dst.new scratch.old scratch.new result }
{
    opening::fibre_open_frame(src, width, height, stride, p, q, length, dst, scratch)
}
