//! The texts of the models.
ghost use Rattle.std.specs.Prelude.{◌≡◌, IfOk, Ok};
ghost use Rattle.sim_language.specs.Reads.{reads};
ghost use Rattle.sim_models.specs.Models.{text_of, scenario_of};

use sim_shop::shop_text;
use std::alloc::{AllocError, Global};

/// A model.
#[derive(Clone, Copy, Debug, PartialEq, Eq)]
pub enum Model {
    Bank,
    Shop,
    Wash,
}

/// The text of the bank.
const BANK: &[u8] = b"scenario 1
until 400
seed 7
resource counter 1
port walkin customer
process customer patience
with r = request counter
t = timeout patience 0
a = any r t
wait a
has y a r
if y
draw d 5 15
timeout d
log 1
else
log 0
end
end
end
process source
repeat 20
draw g 1 12
timeout g
draw w 3 9
spawn customer w
end
end
start source
";

/// The text of the car wash.
const WASH: &[u8] = b"scenario 1
until 60
seed 3
resource wash 2
port gate car
process car id
with r = request wash
wait r
timeout 5
log id
end
end
process source
let i = 0
loop
spawn car i
let i = i + 1
draw g 1 5
timeout g
end
end
start source
";

/// How many machines the shop has.
const MACHINES: u32 = 5;

impl Model {
    /// The seed that its text says.
    pub fn seed(self) -> u64
        ensures { result ≡ (scenario_of self).seed }
    {
        match self {
            Model::Bank => 7,
            Model::Shop => 1,
            Model::Wash => 3,
        }
    }
}

/// The text of a model.
#[tactic(auto, using(crate::proofs::ModelsAreRead::models_are_read))]
pub fn model_text(alloc: Global, model: Model) -> Result<Vec<u8>, AllocError>
    ensures text { IfOk result (λ text. text.items ≡ text_of model) }

    // What it says.
    ensures says { reads (text_of model) ≡ Ok (scenario_of model) }
{
    let text = match model {
        Model::Bank => BANK,
        Model::Shop => return shop_text(alloc, MACHINES),
        Model::Wash => WASH,
    };
    let mut copy = Vec::new(alloc);
    copy.extend_from_slice(text)?;
    Ok(copy)
}
