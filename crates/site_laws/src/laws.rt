// The law between the cells of a site.
ghost use Rattle.site_laws.specs.Laws.{AppendsKeep};

/// Whoever appends just what it may, by what it has seen, keeps the law over all cells.
pub fn appends_keep_the_law()
    ensures { AppendsKeep }
{}
