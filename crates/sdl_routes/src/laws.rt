//! What holds of the routes of every structure that is well formed. These functions do nothing: they carry the proofs.
ghost use Rattle.std.specs.Prelude.{◌≡◌, List};
ghost use Rattle.sdl_routes.specs.declared.route.TableRow.{TableRow};
ghost use Rattle.sdl_routes.specs.Routes.{IsRoute, AreRoutesOf, AreRoutesShort};
ghost use Rattle.sdl_routes.specs.Table.{IsTableRoute};

use sdl_structure_parts::Checked;

/// A route has at most nine hops and ten stations, and no station twice. What a table shows of its routes holds of each.
pub fn routes_are_short(checked: &Checked)
    ensures short { AreRoutesShort checked.now }
    ensures shown { (row : TableRow) → IsRoute checked.now row → IsTableRoute row }
{
    let _structure = checked.structure();
}

/// A structure has one table of routes.
pub fn table_is_determined(checked: &Checked)
    ensures { (rows others : List TableRow) → AreRoutesOf checked.now rows → AreRoutesOf checked.now others → others ≡ rows }
{
    let _structure = checked.structure();
}
