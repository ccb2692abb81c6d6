// What is read of a file.
use crate::Segment;
use arrayvec::ArrayVec;
use or_words::limits::MOST_SEGMENTS;
use std::marker::Model;

/// The segments of a file, in the order of its program headers.
#[derive(Drop)]
pub struct Image {
    pub segments: ArrayVec<Segment, MOST_SEGMENTS>,
}

impl Model for Image {
    ghost use Rattle.or_elf.specs.Image.{Segments};

    ghost Value = { Segments };

    ghost view = { λ image. record { segments = image.segments.items } };
}
