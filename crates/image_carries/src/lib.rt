//! When the bytes of an image carry a source project: the definition, that those of a planned project do, and that
//! reading such bytes gives a plant which carries the project.
#![tactic(auto)]

ghost use Rattle.carries.specs.Carries.{Carries};
ghost use Rattle.image.specs.declared.decoding.ImageFault.{ImageFault};
ghost use Rattle.image_carries.specs.Carry.{BytesCarry};
ghost use Rattle.planned_plant.specs.Plant.{plant_of, project_of, IsWholePlan};
ghost use Rattle.project_image.specs.Gives.{ImageWithin};
ghost use Rattle.project_source.specs.Project.{SourceProject};
ghost use Rattle.project_tables.specs.Planned.{PlannedProject};
ghost use Rattle.std.specs.Prelude.{◌≡◌, ◌≤◌, ◌⊎◌, ℕ, List, Option, Ok, Err, IfOk, length};

use image::{Image, ImageFault, decode};
use std::alloc::Global;

/// What holds of the image of every planned project whose parts are whole: its bytes carry the source project.
pub fn images_carry()
    ensures { (blamed : Option (List ℕ)) (bytes : List ℕ) (p : PlannedProject) → IsWholePlan p → ImageWithin blamed (plant_of p) (Ok bytes) → BytesCarry bytes (project_of p) }
{}

/// The image that bytes are, at most 4,194,304 of them. Bytes that carry a source project are read as the image
/// whose bytes they are, and it carries the project; refused then only without memory.
pub fn decode_carried(alloc: Global, bytes: &[u8]) -> Result<Image, ImageFault>
    requires { length bytes.now ≤ 4194304 }
    ensures carried { (s : SourceProject) → BytesCarry bytes.now s → IfOk result (λ plant. Carries plant s) }
    ensures read { (s : SourceProject) (c : BytesCarry bytes.now s) → (result ≡ Ok c.plant) ⊎ (result ≡ Err ImageFault.Memory) }
{
    decode(alloc, bytes)
}
