//! Tags on all ranks: those about one cell by hand, and those of drawn levels by the words of their definition.

ghost use Rattle.std.specs.Prelude.{◌≡◌, ◌&&◌};
ghost use Rattle.std.specs.List.{list_any};
ghost use Rattle.std.specs.Ordering.{int_eq};

use crate::levels::{
    ALONG_I, ALONG_I_AND_J, NOTHING, Side, all_fit, are_comparable, blocks, domain, drawn,
    level_of, owned, pairs_between, parts_of, ratio,
};
use samr_box::{Domain, IVec, Listed, Ratio, contains, wrap};
use samr_sign::TagField;
use samr_tags::{Given, buffer_all};
use samr_trials_levels::is_width;
use std::alloc::{AllocError as NoMemory, Global};
use std::process::Abort;
use std::test::Fail;

/// The cells that shapes tag.
#[derive(Drop)]
struct Spots {
    cells: Vec<IVec>,
}

fn same_cell(a: IVec, b: IVec) -> bool
    ensures { result ≡ (int_eq a.k b.k && (int_eq a.j b.j && int_eq a.i b.i)) }
{
    a == b
}

impl Given for Spots {
    ghost may_tell = { λ _ _ _ _. Unit };

    ghost is_tagged = { λ s _ _ x. list_any (λ c. int_eq c.k x.k && (int_eq c.j x.j && int_eq c.i x.i)) s.cells.items };

    ghost may_tell_first = { λ _ _ _. Unit };

    ghost first_value = { λ _ _ _. 0 };

    fn tagged(&self, level: u8, step: u32, cell: IVec) -> bool {
        self.cells.iter().any(|c| same_cell(*c, cell))
    }

    fn first(&self, field: u8, cell: IVec) -> u32 {
        0
    }
}

/// The tags of a level on all ranks by way of their letters: `None` where a width, a frame or an owner
/// is not fit for it.
fn buffered(
    alloc: Global,
    ranks: u16,
    d: &Domain,
    level: &Side,
    spots: &Spots,
    width: IVec,
    buffer: IVec,
) -> Result<Option<Vec<Listed<TagField>>>, NoMemory> {
    if !is_width(width) {
        return Ok(None);
    }
    if !is_width(buffer) {
        return Ok(None);
    }
    if !are_comparable(d, level, level) {
        return Ok(None);
    }
    if !all_fit(ranks, level.boxes.as_slice()) {
        return Ok(None);
    }
    let parts = parts_of(alloc, ranks, level.boxes.as_slice())?;
    let selves = pairs_between(alloc, ranks, d, width, level, level)?;
    let fields = buffer_all(
        alloc,
        d,
        parts.as_slice(),
        selves.as_slice(),
        spots,
        0,
        0,
        buffer,
    )?;
    Ok(Some(fields))
}

/// Whether a cell is tagged in a field: not where it lies outside.
pub fn has_tag(field: &TagField, x: IVec) -> bool {
    if contains(field.bx(), x) {
        return field.get(x);
    }
    false
}

#[test]
fn six_cells_across_a_periodic_border(rt: HostRuntime) -> Result<(), Fail> {
    let alloc = rt.alloc();
    let d = domain(&rt, IVec::new(4, 4, 1), ALONG_I);
    let b = owned(&rt, 0, IVec::new(0, 0, 0), IVec::new(3, 3, 0));
    let level = level_of(alloc, ratio(&rt, 1, 1, 1), [b].as_slice())?;
    let spots = Spots {
        cells: Vec::from_slice(alloc, [NOTHING].as_slice())?,
    };
    let buffer = IVec::new(1, 1, 0);
    let made = buffered(alloc, 1, &d, &level, &spots, buffer, buffer)?;
    let fields = made.expect(&rt, "fit");
    assert!(rt; fields.len() == 1);
    assert!(rt; fields[0].as_slice().len() == 1);
    let field = &fields[0].as_slice()[0];
    for j in 0..4i64 {
        for i in 0..4i64 {
            let here = j < 2 && i != 2;
            assert!(rt; has_tag(field, IVec::new(i, j, 0)) == here);
        }
    }
    Ok(())
}

fn in_level(level: &Side, x: IVec) -> bool {
    level.boxes.iter().any(|b| contains(b.bx, x))
}

/// The tags of a level by the words of their definition: a cell of the level, near a tagged cell.
fn plain_tag(d: &Domain, level: &Side, spots: &Spots, buffer: IVec, x: IVec) -> bool {
    if !in_level(level, x) {
        return false;
    }
    for j in -2..3i64 {
        for i in -2..3i64 {
            let y = IVec::new(x.i.saturating_add(i), x.j.saturating_add(j), x.k);
            let near = i.saturating_abs() <= buffer.i && j.saturating_abs() <= buffer.j;
            let home = wrap(d, y);
            if near && in_level(level, home) && spots.tagged(0, 0, home) {
                return true;
            }
        }
    }
    false
}

fn same_as_plain(
    frame: &Domain,
    level: &Side,
    spots: &Spots,
    buffer: IVec,
    fields: &[Listed<TagField>],
) -> bool {
    let mut tagged = 0u32;
    for rank in fields {
        for field in rank.as_slice() {
            for j in 0..32i64 {
                for i in 0..32i64 {
                    let x = IVec::new(i, j, 0);
                    if contains(field.bx(), x) {
                        if field.get(x) != plain_tag(frame, level, spots, buffer, x) {
                            return false;
                        }
                        if field.get(x) {
                            tagged = tagged.saturating_add(1);
                        }
                    }
                }
            }
        }
    }
    0 < tagged
}

fn drawn_spots(alloc: Global, seed: u32, r: Ratio) -> Result<Spots, NoMemory> {
    let mut cells = Vec::new(alloc);
    for n in 0..2u32 {
        let i = i64::from(drawn(seed, n) % 8).saturating_mul(r.i);
        let j = i64::from(drawn(seed ^ 77, n) % 4).saturating_mul(r.j);
        cells.push(IVec::new(i, j, 0))?;
    }
    cells.push(NOTHING)?;
    Ok(Spots { cells })
}

fn draw_tags(rt: &impl Abort, alloc: Global, r: Ratio, buffer: IVec) -> Result<bool, NoMemory> {
    let d = domain(rt, IVec::new(8, 4, 1), ALONG_I_AND_J);
    let frame = domain(
        rt,
        IVec::new(r.i.saturating_mul(8), r.j.saturating_mul(4), 1),
        ALONG_I_AND_J,
    );
    let mut same = true;
    for ranks in 1..6u16 {
        let seed = drawn(31, u32::from(ranks));
        let level = blocks(
            rt,
            alloc,
            ranks,
            seed,
            seed | 0b1001_0111,
            IVec::new(2, 2, 1),
            r,
        )?;
        let spots = drawn_spots(alloc, seed, r)?;
        let made = buffered(alloc, ranks, &d, &level, &spots, IVec::new(2, 2, 1), buffer)?;
        let fields = made.expect(rt, "fit");
        same = same && fields.len() == usize::from(ranks);
        same = same && same_as_plain(&frame, &level, &spots, buffer, fields.as_slice());
    }
    Ok(same)
}

#[test]
fn drawn_tags_on_one_to_five_ranks(rt: HostRuntime) -> Result<(), Fail> {
    let alloc = rt.alloc();
    let one = ratio(&rt, 1, 1, 1);
    let some = ratio(&rt, 2, 3, 1);
    assert!(rt; draw_tags(&rt, alloc, one, IVec::new(1, 1, 0))?);
    assert!(rt; draw_tags(&rt, alloc, some, IVec::new(2, 1, 0))?);
    Ok(())
}
