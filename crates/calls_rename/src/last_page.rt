//! The zones that a directory gives back with its last page.

ghost use Rattle.std.specs.Prelude.{◌≡◌, ◌≤◌, ◌<◌, ◌+◌, ◌-◌, ◌/◌};
ghost use Rattle.tree.specs.ZonesNeeded.{zones_needed};
ghost use Rattle.layout.specs.Places.{IsGeometry};
ghost use Rattle.calls_rename.specs.Sizes.{first_pages, zones_of_size};

use layout::Geometry;

/// How many zones page `page` takes of a file that holds each page before it, where a zone holds so many zone numbers: its own, and each
/// indirect block of which it is the first page.
fn zones_with(geometry: &Geometry, page: u32) -> u32
    requires geometry { IsGeometry geometry.now }
    requires page { page < 2097152 }
    ensures { let n = geometry.now.block_size / 4 in zones_needed n (first_pages (page + 1)) ≡ zones_needed n (first_pages page) + result }
{
    let numbers = geometry.block_size / 4;
    let last = page >= 7 && (page - 7) % numbers == 0;
    let second = page >= 7 + numbers && (page - 7 - numbers) % (numbers * numbers) == 0;
    let third = page == 7 + numbers + numbers * numbers;
    1 + u32::from(last) + u32::from(second) + u32::from(third)
}

/// How many zones a file without holes of `size` bytes gives back when its last 64 bytes go, as a directory's last entry: none where its
/// last page stays; else that page, and each indirect block that no page is left of.
pub fn let_go(geometry: &Geometry, size: u32) -> u32
    requires geometry { IsGeometry geometry.now }
    requires entry { 64 ≤ size }
    requires end { size ≤ 2147483647 }
    ensures { zones_of_size geometry.now size ≡ zones_of_size geometry.now (size - 64) + result }
{
    let kept = (size - 64 + geometry.block_size - 1) / geometry.block_size;
    if (size + geometry.block_size - 1) / geometry.block_size == kept {
        return 0;
    }
    zones_with(geometry, kept)
}
