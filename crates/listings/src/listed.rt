//! What is listed, and the parts of its listing.

ghost use Rattle.std.specs.Prelude.{◌≡◌, ◌<◌, ◌≤◌, ◌+◌, ◌++◌, [], get_or, length, OnOk};
ghost use Rattle.lar_bytes.specs.Answers.{Answers};
ghost use Rattle.listings.specs.Listing as spec;
ghost use Rattle.listings.specs.Listed.{listing_at, parts_of, text_of};

use crate::listing::{push_entry, push_function, push_unlinked, push_use};
use lar_bytes::OrMemory;
use object_format::{BadFile, Image, Object, read_image, read_object};
use std::alloc::{AllocError, Global};

/// An image or an object that is listed.
#[derive(Debug, Drop)]
pub enum Listed {
    Image(Image),
    Object(Object),
}

/// What the bytes spell: an object where they begin with its first four bytes, and else an image.
pub fn read_listed(alloc: Global, bytes: &[u8]) -> Result<Listed, OrMemory<BadFile>>
    ensures { Answers text_of result (listing_at bytes.now) }
{
    if bytes.starts_with(b"LROB") {
        Ok(Listed::Object(read_object(alloc, bytes)?))
    } else {
        Ok(Listed::Image(read_image(alloc, bytes)?))
    }
}

fn push_image_part(text: &mut Vec<u8>, image: &Image, part: usize) -> Result<(), AllocError>
    requires { part ≤ length image.now.functions }
    ensures { OnOk result (text.new.items ≡ text.old.items ++ get_or (spec.image_parts image.now) part []) }
{
    if part == 0 {
        push_entry(text, image.entry())
    } else {
        push_function(text, part - 1, &image.functions()[part - 1])
    }
}

fn push_object_part(text: &mut Vec<u8>, object: &Object, part: usize) -> Result<(), AllocError>
    requires { part < length object.now.functions + length object.now.externals }
    ensures { OnOk result (text.new.items ≡ text.old.items ++ get_or (spec.object_parts object.now) part []) }
{
    let functions = object.functions();
    if part < functions.len() {
        push_unlinked(text, part, &functions[part])
    } else {
        let external = &object.externals()[part - functions.len()];
        push_use(text, part, external.as_str())
    }
}

impl Listed {
    /// How many parts the listing has: the line of an image's entry, each function, each external of an object.
    pub fn parts(&self) -> usize
        ensures { result ≡ length (parts_of self.now) }
    {
        match self {
            Listed::Image(image) => 1 + image.functions().len(),
            Listed::Object(object) => object.functions().len() + object.externals().len(),
        }
    }

    /// Puts one part behind the text.
    pub fn push_part(&self, text: &mut Vec<u8>, part: usize) -> Result<(), AllocError>
        requires { part < length (parts_of self.now) }
        ensures { OnOk result (text.new.items ≡ text.old.items ++ get_or (parts_of self.now) part []) }
    {
        match self {
            Listed::Image(image) => push_image_part(text, image, part),
            Listed::Object(object) => push_object_part(text, object, part),
        }
    }
}
