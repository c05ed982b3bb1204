//! An image of either version as one of version 2.

ghost use Rattle.std.specs.Prelude.{◌≡◌, IfOk};
ghost use Rattle.image_format.specs.Compartments.{rows_of, version_of};
ghost use Rattle.image_format.specs.declared.version.Version.TheVariants.{Two};

use crate::compartments::{CompartmentRange, CompartmentRanges, WideCompartmentRange};
use crate::image::Image;
use std::alloc::{AllocError, Global};

/// The rows as those of version 2.
fn wide_rows(
    alloc: Global,
    rows: &[CompartmentRange],
) -> Result<Vec<WideCompartmentRange>, AllocError>
    ensures { IfOk result (λ wide. wide.items ≡ rows.now) }
{
    let mut wide = Vec::with_capacity(alloc, rows.len())?;
    for row in rows {
        wide.push(row.widened())?;
    }
    Ok(wide)
}

/// The rows of either version as those of version 2.
fn wide_ranges(alloc: Global, ranges: CompartmentRanges) -> Result<CompartmentRanges, AllocError>
    ensures version { IfOk result (λ wide. version_of wide ≡ Two) }
    ensures rows { IfOk result (λ wide. rows_of wide ≡ rows_of ranges) }
{
    match ranges {
        CompartmentRanges::Narrow(rows) => {
            let wide = wide_rows(alloc, &rows)?;
            Ok(CompartmentRanges::Wide(wide))
        }
        CompartmentRanges::Wide(rows) => Ok(CompartmentRanges::Wide(rows)),
    }
}

impl Image {
    ghost use Rattle.image_format.specs.Migrated.{migrated};

    /// The same image in version 2, where there may be 128 compartments. Only running out of memory is an error.
    pub fn migrate(self, alloc: Global) -> Result<Image, AllocError>
        ensures { IfOk result (λ image. image ≡ migrated self) }
    {
        let compartments = wide_ranges(alloc, self.compartments)?;
        Ok(Image {
            ram: self.ram,
            heap_base: self.heap_base,
            heap_bytes: self.heap_bytes,
            entries: self.entries,
            segments: self.segments,
            code: self.code,
            labels: self.labels,
            edges: self.edges,
            compartments,
        })
    }
}
