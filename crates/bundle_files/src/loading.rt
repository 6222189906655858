//! The loader of bundles.
ghost use Rattle.std.specs.Prelude.{◌≡◌, ◌≤◌, IfOk, IfSome, Some, None, Err, option_map, option_and_then};
ghost use Rattle.text_core.specs.Outside.{Rose};
ghost use Rattle.slot_compile.specs.Template.{syntax_of};
ghost use Rattle.bundle_files.specs.ManifestView.{manifest_view};
ghost use Rattle.bundle_files.specs.Bundle.{bundle_view, small_file, template_in, bundle_with, bundle_of};

use crate::files::{read_files, small_file};
use crate::manifest::{Manifest, read_manifest};
use crate::{Bundle, LoadFault};
use slot_compile::Compiled;
use std::alloc::Global;
use std::str;
use template_reader::read_template;
use text_core::{Bytes, Folder, OutOfMemory, Text};

// How many files a folder may have that is read at all.
const MOST_FILES: usize = 256;

// The template of bytes in UTF-8.
fn template_in(alloc: Global, bytes: &[u8]) -> Result<Option<Compiled>, OutOfMemory>
    ensures { IfOk result (λ c. option_map syntax_of c ≡ template_in bytes.now) }
{
    match str::from_utf8(bytes) {
        Ok(text) => read_template(alloc, text),
        Err(_) => Ok(None),
    }
}

// The template of the file of that name.
fn template_at(
    alloc: Global,
    files: &[(Text, Bytes)],
    name: &str,
) -> Result<Option<Compiled>, OutOfMemory>
    ensures { IfOk result (λ c. option_map syntax_of c ≡ option_and_then template_in (small_file name.now files.now)) }
{
    match small_file(files, name) {
        Some(source) => template_in(alloc, source),
        None => Ok(None),
    }
}

// The bundle of a manifest and the template that it names.
fn bundle_with(
    alloc: Global,
    files: &[(Text, Bytes)],
    manifest: Manifest,
) -> Result<Option<Bundle>, OutOfMemory>
    ensures { IfOk result (λ b. option_map bundle_view b ≡ bundle_with files.now (manifest_view manifest)) }
{
    let Manifest {
        template,
        mount,
        events,
    } = manifest;
    let mut name = template;
    name.push_str(".html.heex")?;
    match template_at(alloc, files, name.as_str())? {
        Some(compiled) => {
            compiled.places_are_plain();
            Ok(Some(Bundle {
                compiled,
                mount,
                events,
            }))
        }
        None => Ok(None),
    }
}

// The bundle that the files are, or nothing where they are none.
fn bundle_of(alloc: Global, files: &[(Text, Bytes)]) -> Result<Option<Bundle>, OutOfMemory>
    ensures { IfOk result (λ b. option_map bundle_view b ≡ bundle_of files.now) }
{
    if files.len() != 2 {
        return Ok(None);
    }
    let Some(bytes) = small_file(files, "bundle.json") else {
        return Ok(None);
    };
    match read_manifest(alloc, bytes)? {
        Some(manifest) => bundle_with(alloc, files, manifest),
        None => Ok(None),
    }
}

/// Loads the bundle of a folder: `ReadFault` where the folder or a file could not be read,
/// `Refused` where its files are no bundle. All files are read before one is judged, but none of
/// a folder that has more than 256.
pub fn load<F: Folder>(alloc: Global, folder: &mut F) -> Result<Bundle, LoadFault>
    ensures bundle { IfOk result (λ b. IfSome (F.files folder.old) (λ fs. bundle_of fs ≡ Some (bundle_view b))) }
    ensures refused { result ≡ Err LoadFault.Refused → IfSome (F.files folder.old) (λ fs. bundle_of fs ≡ None) }
    ensures later { F.failed folder.old ≤ F.failed folder.new }
    ensures cause { result ≡ Err LoadFault.ReadFault → Rose (F.failed folder.old) (F.failed folder.new) }
{
    let names = folder.names(alloc)?;
    if names.len() > MOST_FILES {
        return Err(LoadFault::Refused);
    }
    let files = read_files(alloc, folder, names.as_slice())?;
    match bundle_of(alloc, files.as_slice())? {
        Some(bundle) => Ok(bundle),
        None => Err(LoadFault::Refused),
    }
}
