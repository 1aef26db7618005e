//! Upgrading: routine after routine, a site for each old site that its instructions name, in the order of first use.

ghost use Rattle.std.specs.Prelude.{◌≡◌, suc, ◌++◌, ◌+◌, ◌<◌, ◌≤◌, List, [], length, map, slice_range, OnOk, IfOk};
ghost use Rattle.td_ir.specs.Tables.{site_of, routine_of, begin, lengths_of};
ghost use Rattle.td_image_upgrade.specs.Upgrade as upgrades;
ghost use Rattle.td_image_upgrade.specs.Upgrade.{with_used, used_in, used_by, own_site, sites_below, number_in, new_number, own_code, code_below, upgraded};
ghost use Rattle.td_image_upgrade.specs.Laws.{IsDivided};
ghost use Rattle.td_image_upgrade.specs.declared.upgrade.TheConstants.{NO_SITE};
ghost use Rattle.td_ir.specs.declared.tables.Site.{Site};

use crate::used::Used;
use std::alloc::{AllocError, Global};
use td_ir::fields::named;
use td_ir::instructions::Instr;
use td_ir::tables::{Parts, Site};
use td_num::items::Items;

/// The number of a site that no table has.
pub const NO_SITE: u32 = 4_294_967_295;

// The instruction with another site.
fn with_site(instruction: Instr, site: u32) -> Instr
    ensures { result ≡ upgrades.renumbered (λ k. site) instruction }
{
    match instruction {
        Instr::Call {
            first,
            routine,
            map,
            site: _,
        } => Instr::Call {
            first,
            routine,
            map,
            site,
        },
        Instr::Fetch {
            into,
            order,
            width,
            site: _,
        } => Instr::Fetch {
            into,
            order,
            width,
            site,
        },
        Instr::SkipK { bytes, site: _ } => Instr::SkipK { bytes, site },
        Instr::Skip { size, site: _ } => Instr::Skip { size, site },
        Instr::Zeros { site: _ } => Instr::Zeros { site },
        Instr::Zeroterm {
            bound,
            width,
            site: _,
        } => Instr::Zeroterm { bound, width, site },
        Instr::NarrowK { bytes, site: _ } => Instr::NarrowK { bytes, site },
        Instr::Narrow { size, site: _ } => Instr::Narrow { size, site },
        Instr::Divides {
            size,
            step,
            site: _,
        } => Instr::Divides { size, step, site },
        Instr::Widen { site: _ } => Instr::Widen { site },
        Instr::Fail { reason, site: _ } => Instr::Fail { reason, site },
        Instr::Copy {
            size,
            buffer,
            site: _,
        } => Instr::Copy { size, buffer, site },
        other => other,
    }
}

fn site_at(parts: &Parts, site: u32) -> Site
    requires { site < length parts.now.sites }
    ensures { result ≡ site_of parts.now site }
{
    parts.sites.as_slice()[site as usize]
}

// One more site of routine `n`, where the old one is in its table and not used yet.
fn use_site(
    parts: &Parts,
    n: u32,
    site: Option<u32>,
    used: &mut Used,
    sites: &mut Items<Site>,
) -> Result<(), AllocError>
    ensures used { OnOk result (used.new ≡ with_used (length parts.now.sites) used.old site) }
    ensures sites { OnOk result ((before : List Site) → sites.old ≡ before ++ map (own_site parts.now n) used.old → sites.new ≡ before ++ map (own_site parts.now n) used.new) }
{
    if let Some(k) = site {
        if (k as usize) < parts.sites.len() && !used.contains(k) {
            let old = site_at(parts, k);
            sites.push(Site {
                ty: old.ty,
                field: old.field,
                routine: n,
            })?;
            used.add(k)?;
        }
    }
    Ok(())
}

// The sites that instructions of routine `n` name, each once, behind those of lower routines.
fn use_sites(
    parts: &Parts,
    n: u32,
    code: &[Instr],
    used: &mut Used,
    sites: &mut Items<Site>,
) -> Result<(), AllocError>
    requires { used.old ≡ [] }
    ensures used { OnOk result (used.new ≡ used_in (length parts.now.sites) [] code.now) }
    ensures sites { OnOk result (sites.new ≡ sites.old ++ map (own_site parts.now n) used.new) }
{
    for instruction in code {
        use_site(parts, n, named(*instruction), used, sites)?;
    }
    Ok(())
}

// The number of an old site, in a table in which the routine's sites stand from one on.
fn number_of(old: usize, base: usize, used: &Used, site: u32) -> u32
    requires { base + length used.now ≤ NO_SITE }
    ensures { result ≡ new_number old base used.now site }
{
    if (site as usize) < old {
        (base + used.number(u64::from(site))) as u32
    } else {
        NO_SITE
    }
}

fn renumbered(old: usize, base: usize, used: &Used, instruction: Instr) -> Instr
    requires { base + length used.now ≤ NO_SITE }
    ensures { result ≡ upgrades.renumbered (new_number old base used.now) instruction }
{
    match named(instruction) {
        Some(site) => with_site(instruction, number_of(old, base, used, site)),
        None => instruction,
    }
}

fn put_code(
    old: usize,
    base: usize,
    used: &Used,
    code: &[Instr],
    instructions: &mut Items<Instr>,
) -> Result<(), AllocError>
    requires { base + length used.now ≤ NO_SITE }
    ensures { OnOk result (instructions.new ≡ instructions.old ++ map (upgrades.renumbered (new_number old base used.now)) code.now) }
{
    for instruction in code {
        instructions.push(renumbered(old, base, used, *instruction))?;
    }
    Ok(())
}

fn length_of(parts: &Parts, n: usize) -> usize
    requires { n < length parts.now.routines }
    ensures { result ≡ (routine_of parts.now n).length }
{
    parts.routines.as_slice()[n].length as usize
}

fn code_of(parts: &Parts, from: usize, end: usize) -> &[Instr]
    requires from { from ≤ end }
    requires end { end ≤ length parts.now.instructions }
    ensures { result.now ≡ slice_range parts.now.instructions from end }
{
    &parts.instructions.as_slice()[from..end]
}

// Routine `n`, behind those of lower numbers.
fn upgrade_routine(
    alloc: Global,
    parts: &Parts,
    n: usize,
    from: usize,
    sites: &mut Items<Site>,
    instructions: &mut Items<Instr>,
) -> Result<usize, AllocError>
    requires divided { IsDivided parts.now }
    requires n { n < length parts.now.routines }
    requires small { n < 4294967296 }
    requires from { from ≡ begin (lengths_of parts.now) n }
    requires sites { sites.old ≡ sites_below parts.now n }
    requires instructions { instructions.old ≡ code_below parts.now n }
    ensures from { IfOk result (λ end. end ≡ begin (lengths_of parts.now) (suc n)) }
    ensures sites { OnOk result (sites.new ≡ sites_below parts.now (suc n)) }
    ensures instructions { OnOk result (instructions.new ≡ code_below parts.now (suc n)) }
{
    let end = from + length_of(parts, n);
    let code = code_of(parts, from, end);
    let base = sites.len();
    let mut used = Used::new(alloc);
    use_sites(parts, n as u32, code, &mut used, sites)?;
    put_code(parts.sites.len(), base, &used, code, instructions)?;
    Ok(end)
}

/// Code in which each site belongs to one routine: takes time and memory in proportion to the code. `AllocError`: there was
/// no memory for it.
pub fn upgrade(alloc: Global, parts: Parts) -> Result<Parts, AllocError>
    requires divided { IsDivided parts }
    requires small { length parts.routines ≤ 4294967295 }
    ensures { IfOk result (λ new. new ≡ upgraded parts) }
{
    let mut sites = Items::new(alloc);
    let mut instructions = Items::new(alloc);
    let mut from = 0;
    for n in 0..parts.routines.len() {
        from = upgrade_routine(alloc, &parts, n, from, &mut sites, &mut instructions)?;
    }
    Ok(Parts {
        sites,
        instructions,
        ..parts
    })
}
