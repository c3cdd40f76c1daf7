ghost use Rattle.std.specs.Prelude.{◌≡◌, ◌≤◌, unsigned_abs};
ghost use Rattle.stage.specs.Quantize.{quantize, IsQuantized};

/// What a stage keeps of a number. Of a step of 0, which no stage has, it keeps nothing.
pub fn quantize(step: u8, x: i32) -> i32
    ensures is { result ≡ quantize step x }
    ensures bound { unsigned_abs result ≤ 32767 }
    ensures kept { 1 ≤ step → IsQuantized step x result }
{
    let step = i32::from(step);
    if step == 0 {
        return 0;
    }
    x.clamp(-32767, 32767) / step * step
}
