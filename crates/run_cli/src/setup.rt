//! From the options of a setup, and the files that they name, to the setup.
ghost use Rattle.std.specs.Prelude.{◌≡◌, ◌≤◌, length, OnOk, IfOk, IfErr};
ghost use Rattle.elf_image.specs.Layout.{Layout};
ghost use Rattle.elf_image.specs.ImageFault.{IsAccepted};
ghost use Rattle.tag_policy.specs.Policies.{policy_in, standard_policy};
ghost use Rattle.tag_policy.specs.Rules.{PolicySeen};
ghost use Rattle.machine.specs.Setups.{IsSetup};
ghost use Rattle.syscall_drain.specs.declared.limits.TheConstants.{MOST_INPUT};
ghost use Rattle.run_cli.specs.Seen.{files_seen};
ghost use Rattle.run_cli.specs.Asked.{Asked, image_in, setup_in};
ghost use Rattle.run_cli.specs.Work.{layout_with, setup_of, IsImage, IsPolicy, IsInput, IsSetupOf, AsksForImage, AsksForSetup, HasImage, HasPolicy};
ghost use Rattle.run_cli.specs.Causes.{Caused};
ghost use Rattle.run_cli.specs.Forms.{image_ending, policy_ending};

use crate::ending::Ending;
use crate::files::{FileKind, read_file};
use crate::options::{ImageOptions, SetupOptions};
use elf_image::{Image, ImageFault, load};
use inline_tracker::Setup;
use outside::Files;
use std::alloc::Global;
use syscall_drain::Guest;
use tag_policy::{Policy, PolicyFault, read_policy};

/// The ending where an image is refused.
fn image_ending(fault: ImageFault) -> Ending
    ensures { result ≡ image_ending fault }
{
    match fault {
        ImageFault::NoMemory => Ending::Memory,
        fault => Ending::Image(fault),
    }
}

/// The ending where the text of a policy is refused.
fn policy_ending(fault: PolicyFault) -> Ending
    ensures { result ≡ policy_ending fault }
{
    match fault {
        PolicyFault::Bad { kind, table, key } => Ending::Policy { kind, table, key },
        PolicyFault::NoMemory => Ending::Memory,
    }
}

/// The image that a command asks for.
pub fn read_image<F: Files>(
    alloc: Global,
    options: &ImageOptions<'_>,
    files: &mut F,
) -> Result<Image, Ending>
    ensures read { IfOk result (IsImage (files_seen (F.held files.old) (F.faults files.old)) (image_in options.now)) }
    ensures same { OnOk result (files_seen (F.held files.new) (F.faults files.new) ≡ files_seen (F.held files.old) (F.faults files.old)) }
    ensures refused { (asked : Asked) → AsksForImage (files_seen (F.held files.old) (F.faults files.old)) asked (image_in options.now)
        → IfErr result (Caused asked (files_seen (F.held files.old) (F.faults files.old)) (files_seen (F.held files.new) (F.faults files.new))) }
{
    let bytes = read_file(alloc, FileKind::Image, options.name, files)?;
    match load(
        alloc,
        bytes.as_slice(),
        options.cores,
        options.stack,
        options.heap,
    ) {
        Ok(image) => Ok(image),
        Err(fault) => Err(image_ending(fault)),
    }
}

/// The policy of the options: without a file, the standard policy.
fn policy_of<F: Files>(
    alloc: Global,
    options: &SetupOptions<'_>,
    files: &mut F,
) -> Result<Policy, Ending>
    ensures read { IfOk result (λ policy. IsPolicy (files_seen (F.held files.old) (F.faults files.old)) (setup_in options.now).policy (policy_in policy)) }
    ensures same { OnOk result (files_seen (F.held files.new) (F.faults files.new) ≡ files_seen (F.held files.old) (F.faults files.old)) }
    ensures refused { (asked : Asked) (image : Layout) → HasImage (files_seen (F.held files.old) (F.faults files.old)) asked (setup_in options.now) image
        → IfErr result (Caused asked (files_seen (F.held files.old) (F.faults files.old)) (files_seen (F.held files.new) (F.faults files.new))) }
{
    let Some(name) = options.policy else {
        return Ok(Policy::standard());
    };
    let text = read_file(alloc, FileKind::Policy, name, files)?;
    match read_policy(alloc, text.as_slice()) {
        Ok(policy) => Ok(policy),
        Err(fault) => Err(policy_ending(fault)),
    }
}

/// The input of the options: without a file, no bytes.
fn input_of<F: Files>(
    alloc: Global,
    options: &SetupOptions<'_>,
    files: &mut F,
) -> Result<Vec<u8>, Ending>
    ensures read { IfOk result (λ input. IsInput (files_seen (F.held files.old) (F.faults files.old)) (setup_in options.now).input input.items) }
    ensures short { IfOk result (λ input. length input.items ≤ MOST_INPUT) }
    ensures same { OnOk result (files_seen (F.held files.new) (F.faults files.new) ≡ files_seen (F.held files.old) (F.faults files.old)) }
    ensures refused { (asked : Asked) (image : Layout) (policy : PolicySeen) → HasPolicy (files_seen (F.held files.old) (F.faults files.old)) asked (setup_in options.now) image policy
        → IfErr result (Caused asked (files_seen (F.held files.old) (F.faults files.old)) (files_seen (F.held files.new) (F.faults files.new))) }
{
    match options.input {
        Some(name) => read_file(alloc, FileKind::Input, name, files),
        None => Ok(Vec::new(alloc)),
    }
}

/// The setup of the options with what was read.
fn setup_with(options: &SetupOptions<'_>, image: Image, policy: Policy, input: Vec<u8>) -> Setup
    requires numbers { image ≡ layout_with (image_in options.now.image) image.bytes }
    requires accepted { IsAccepted image }
    requires short { length input.items ≤ MOST_INPUT }
    ensures { result ≡ setup_of (setup_in options.now) image (policy_in policy) input.items }
{
    let guest = Guest::new(image, input);
    Setup::new(guest, policy, options.budget, options.limit)
}

/// The setup that the options and the files say.
pub fn read_setup<F: Files>(
    alloc: Global,
    options: &SetupOptions<'_>,
    files: &mut F,
) -> Result<Setup, Ending>
    ensures read { IfOk result (IsSetupOf (files_seen (F.held files.old) (F.faults files.old)) (setup_in options.now)) }
    ensures same { OnOk result (files_seen (F.held files.new) (F.faults files.new) ≡ files_seen (F.held files.old) (F.faults files.old)) }
    ensures refused { (asked : Asked) → AsksForSetup (files_seen (F.held files.old) (F.faults files.old)) asked (setup_in options.now)
        → IfErr result (Caused asked (files_seen (F.held files.old) (F.faults files.old)) (files_seen (F.held files.new) (F.faults files.new))) }
{
    let image = read_image(alloc, &options.image, files)?;
    let policy = policy_of(alloc, options, files)?;
    let input = input_of(alloc, options, files)?;
    Ok(setup_with(options, image, policy, input))
}
