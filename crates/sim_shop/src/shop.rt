//! The text of the machine shop.
ghost use Rattle.std.specs.Prelude.{◌≡◌, ◌++◌, decimal, IfOk, IsOk, OnOk};
ghost use Rattle.sim_language.specs.Reads.{reads};
ghost use Rattle.sim_shop.specs.Shop.{shop_text};

use itoa::Buffer;
use std::alloc::{AllocError, Global};

/// The text up to the number of crews.
const UP_TO_CREWS: &[u8] = b"scenario 1
until 1000
seed 1
preemptive crew ";

/// From there up to the number of fillers.
const UP_TO_FILLERS: &[u8] = b"
process breaker m:proc
loop
draw t 50 150
timeout t
interrupt m 1
end
end
process machine id
spawn breaker me
loop
draw left 8 12
loop
if left
else
break
end
let from = now
try
timeout left
let left = 0
catch k v
let left = left + from
let left = left - now
try
with r = request crew 1 preempt
wait r
timeout 5
end
catch k v
end
end
end
log id
end
end
process filler
loop
try
with r = request crew 2 wait
wait r
timeout 30
end
catch k v
end
end
end
process chief
repeat ";

/// From there up to the number of machines.
const UP_TO_MACHINES: &[u8] = b"
spawn filler
end
let i = 0
repeat ";

/// From there to the end.
const TO_END: &[u8] = b"
spawn machine i
let i = i + 1
end
end
start chief
";

/// The text of the machine shop with so many machines, and with a crew for each ten of them and one more.
#[tactic(auto, using(crate::proofs::ShopIsRead::shop_is_read))]
pub fn shop_text(alloc: Global, size: u32) -> Result<Vec<u8>, AllocError>
    ensures text { IfOk result (λ text. text.items ≡ shop_text size) }

    // That text says a scenario.
    ensures accepted { IsOk (reads (shop_text size)) }
{
    let crews = size / 10 + 1;
    let mut text = Vec::new(alloc);
    text.extend_from_slice(UP_TO_CREWS)?;
    append_number(&mut text, crews)?;
    text.extend_from_slice(UP_TO_FILLERS)?;
    append_number(&mut text, crews)?;
    text.extend_from_slice(UP_TO_MACHINES)?;
    append_number(&mut text, size)?;
    text.extend_from_slice(TO_END)?;
    Ok(text)
}

fn append_number(text: &mut Vec<u8>, number: u32) -> Result<(), AllocError>
    ensures { OnOk result (text.new.items ≡ text.old.items ++ decimal number) }
{
    text.extend_from_slice(Buffer::new().format(number).as_bytes())
}
